// The limits of documents 01 and 02, as code has them; definitions/specs/Limits.antt is their meaning.

#[derive(Clone, Copy)]
pub struct Limits {}

impl Limits {
    pub const CONTROLLERS: usize = 11;

    // The run marks of so many controllers are two digits.
    pub const TWO_DIGIT_CONTROLLERS: usize = 8;

    pub const STATES: usize = 128;

    pub const ATOMS: usize = 32;

    pub const GAUGES: usize = 8;

    pub const RULE_NODES: usize = 64;

    pub const TABLE_NODES: usize = 1024;

    // The words of one node's two rows.
    pub const PAIR_WORDS: usize = 6;

    // The words of the rows of a whole table: 6,144.
    pub const ROWS_WORDS: usize = Limits::TABLE_NODES * Limits::PAIR_WORDS;

    pub const RULE_BYTES: usize = 1024;

    pub const INPUT_BYTES: usize = 16384;

    pub const LINE_BYTES: usize = 1024;

    pub const OPEN_BRACKETS: usize = 16;

    pub const PAIRS: usize = Limits::STATES * Limits::RULE_NODES;

    pub const ARCHIVE_BYTES: usize = 8192;
}
