// The lists of nodes of documents 01 and 02 as data: a row for each node, a block of rows for each list, and which block a node of a rule becomes.
ghost use Rattle.images.specs.Blocks.{lists_of, IsBlock};

use rules::kind::Kind;

// A row: the kind of a node, and for its operands numbers of the opening, which stand for themselves, or these names. An unused operand is 0.
#[derive(Clone, Copy)]
pub struct Row(pub Kind, pub u16, pub u16);

// "·", the node just emitted.
pub const DOT: u16 = 10;

// "a and b are the operands' images of the same reading": of the weak one AW and BW, of the strong one AS and BS.
const AW: u16 = 11;

const AS: u16 = 12;

const BW: u16 = 13;

const BS: u16 = 14;

// The first node of the weak image: of a foreign atom "the atom", of a weak until or since "g".
const X: u16 = 15;

// The first node of the strong image: of a strong until or since "g".
const G: u16 = 16;

// An atom's number.
const N: u16 = 17;

// How many numbers of the opening and names there are for operands.
pub const NAMES: usize = 18;

// The rows, named as document 01 spells them.
const TRUE: Row = Row(Kind::True, 0, 0);

const RUN: Row = Row(Kind::Run, 0, 0);

const END: Row = Row(Kind::End, 0, 0);

const ATOM_N: Row = Row(Kind::Atom, N, 0);

const NOT_0: Row = Row(Kind::Not, 0, 0);

const NOT_3: Row = Row(Kind::Not, 3, 0);

const NOT_5: Row = Row(Kind::Not, 5, 0);

const NOT_7: Row = Row(Kind::Not, 7, 0);

const NOT_9: Row = Row(Kind::Not, 9, 0);

const NOT_X: Row = Row(Kind::Not, X, 0);

const NOT_DOT: Row = Row(Kind::Not, DOT, 0);

const NOT_AS: Row = Row(Kind::Not, AS, 0);

const NOT_AW: Row = Row(Kind::Not, AW, 0);

const NOT_BW: Row = Row(Kind::Not, BW, 0);

const NOT_BS: Row = Row(Kind::Not, BS, 0);

const OR_2_4: Row = Row(Kind::Or, 2, 4);

const OR_0_6: Row = Row(Kind::Or, 0, 6);

const OR_1_DOT: Row = Row(Kind::Or, 1, DOT);

const OR_AW_BW: Row = Row(Kind::Or, AW, BW);

const OR_AS_BS: Row = Row(Kind::Or, AS, BS);

const OR_8_AW: Row = Row(Kind::Or, 8, AW);

const OR_8_DOT: Row = Row(Kind::Or, 8, DOT);

const OR_DOT_9: Row = Row(Kind::Or, DOT, 9);

const OR_8_AS: Row = Row(Kind::Or, 8, AS);

const OR_3_DOT: Row = Row(Kind::Or, 3, DOT);

const OR_9_BW: Row = Row(Kind::Or, 9, BW);

const OR_9_DOT: Row = Row(Kind::Or, 9, DOT);

const NEXT_DOT: Row = Row(Kind::Next, DOT, 0);

const NEXT_AW: Row = Row(Kind::Next, AW, 0);

const NEXT_AS: Row = Row(Kind::Next, AS, 0);

const UNTIL_8_DOT: Row = Row(Kind::Until, 8, DOT);

const UNTIL_X_DOT: Row = Row(Kind::Until, X, DOT);

const UNTIL_G_DOT: Row = Row(Kind::Until, G, DOT);

const UNTIL_AW_DOT: Row = Row(Kind::Until, AW, DOT);

const UNTIL_AS_DOT: Row = Row(Kind::Until, AS, DOT);

const PREV_1: Row = Row(Kind::Prev, 1, 0);

const PREV_3: Row = Row(Kind::Prev, 3, 0);

const PREV_DOT: Row = Row(Kind::Prev, DOT, 0);

const SINCE_1_DOT: Row = Row(Kind::Since, 1, DOT);

const SINCE_X_DOT: Row = Row(Kind::Since, X, DOT);

const SINCE_G_DOT: Row = Row(Kind::Since, G, DOT);

const SINCE_AW_BW: Row = Row(Kind::Since, AW, BW);

const SINCE_AS_BS: Row = Row(Kind::Since, AS, BS);

// "Opening, numbers 0 to 10: run; not 0; prev 1; end; not 3; or 2 4; not 5; or 0 6 (*state*); not 7; prev 3; not 9"
pub const OPENING: &[Row] = &[
    RUN, NOT_0, PREV_1, END, NOT_3, OR_2_4, NOT_5, OR_0_6, NOT_7, PREV_3, NOT_9,
];

// A list of document 01: how many of its rows are the weak image's, and the rows.
#[derive(Clone, Copy)]
pub struct Block {
    pub weak: usize,
    pub rows: &'static [Row],
}

// "true, own atom: itself, w and s the same (1 node)"
const TRUE_ITSELF: Block = Block {
    weak: 1,
    rows: &[TRUE],
};

// The same, of an own atom.
const OWN_ATOM: Block = Block {
    weak: 1,
    rows: &[ATOM_N],
};

// "foreign atom: atom; or 1 · (w); not of the atom; or 1 ·; not · (s) (5)"
const FOREIGN_ATOM: Block = Block {
    weak: 2,
    rows: &[ATOM_N, OR_1_DOT, NOT_X, OR_1_DOT, NOT_DOT],
};

// "not: not of the operand's s (w); not of its w (s) (2)"
const NOT_BOTH: Block = Block {
    weak: 1,
    rows: &[NOT_AS, NOT_AW],
};

// "or: or a b, twice (2)"
const OR_BOTH: Block = Block {
    weak: 1,
    rows: &[OR_AW_BW, OR_AS_BS],
};

// "next: w: or 8 a; not ·; until 8 ·; not ·; next ·. s: not a; or 8 ·; not ·; until 8 ·; next · (10)"
const PLAIN_NEXT: Block = Block {
    weak: 5,
    rows: &[
        OR_8_AW,
        NOT_DOT,
        UNTIL_8_DOT,
        NOT_DOT,
        NEXT_DOT,
        NOT_AS,
        OR_8_DOT,
        NOT_DOT,
        UNTIL_8_DOT,
        NEXT_DOT,
    ],
};

// "until: w: or 8 a (call it g); not b; or 8 ·; not ·; or · 9; until g ·. s: the same without "or · 9" (11)"
const PLAIN_UNTIL: Block = Block {
    weak: 6,
    rows: &[
        OR_8_AW,
        NOT_BW,
        OR_8_DOT,
        NOT_DOT,
        OR_DOT_9,
        UNTIL_X_DOT,
        OR_8_AS,
        NOT_BS,
        OR_8_DOT,
        NOT_DOT,
        UNTIL_G_DOT,
    ],
};

// "prev: not a; or 1 ·; not ·; since 1 ·; prev ·, twice (10)"
const PLAIN_PREV: Block = Block {
    weak: 5,
    rows: &[
        NOT_AW,
        OR_1_DOT,
        NOT_DOT,
        SINCE_1_DOT,
        PREV_DOT,
        NOT_AS,
        OR_1_DOT,
        NOT_DOT,
        SINCE_1_DOT,
        PREV_DOT,
    ],
};

// "since: or 8 a (g); not b; or 8 ·; not ·; since g ·, twice (10)"
const PLAIN_SINCE: Block = Block {
    weak: 5,
    rows: &[
        OR_8_AW,
        NOT_BW,
        OR_8_DOT,
        NOT_DOT,
        SINCE_X_DOT,
        OR_8_AS,
        NOT_BS,
        OR_8_DOT,
        NOT_DOT,
        SINCE_G_DOT,
    ],
};

// "Closing, from the rule's w: or 8 w; not ·; until 8 ·; not · (top weak); from its s: not s; or 8 ·; not ·; until 8 · (top strong) (8)"
pub const CLOSING: Block = Block {
    weak: 4,
    rows: &[
        OR_8_AW,
        NOT_DOT,
        UNTIL_8_DOT,
        NOT_DOT,
        NOT_AS,
        OR_8_DOT,
        NOT_DOT,
        UNTIL_8_DOT,
    ],
};

// "next of a tolerant operand: w: next a; or 3 ·. s: next a; not ·; or 3 ·; not · (6)"
const SHORT_NEXT: Block = Block {
    weak: 2,
    rows: &[NEXT_AW, OR_3_DOT, NEXT_AS, NOT_DOT, OR_3_DOT, NOT_DOT],
};

// "until of two tolerant operands: w: or 9 b; until a ·. s: not b; or 9 ·; not ·; until a · (6)"
const SHORT_UNTIL: Block = Block {
    weak: 2,
    rows: &[
        OR_9_BW,
        UNTIL_AW_DOT,
        NOT_BS,
        OR_9_DOT,
        NOT_DOT,
        UNTIL_AS_DOT,
    ],
};

// Document 02: "Since of two tolerant operands becomes tolerant, with image since a b for each reading (2 nodes)"
const SHORT_SINCE: Block = Block {
    weak: 1,
    rows: &[SINCE_AW_BW, SINCE_AS_BS],
};

// Which of the lists a node of a rule becomes.
#[derive(Clone, Copy)]
pub enum Form {
    TrueItself,
    OwnAtom,
    ForeignAtom,
    NotBoth,
    OrBoth,
    PlainNext,
    PlainUntil,
    PlainPrev,
    PlainSince,
    ShortNext,
    ShortUntil,
    ShortSince,
}

// The list of a form.
#[tactic(auto, unfolding(crate::specs::Blocks::lists_of))]
pub fn block_of(form: Form) -> Block
    ensures { IsBlock (lists_of form) result }
{
    match form {
        Form::TrueItself => TRUE_ITSELF,
        Form::OwnAtom => OWN_ATOM,
        Form::ForeignAtom => FOREIGN_ATOM,
        Form::NotBoth => NOT_BOTH,
        Form::OrBoth => OR_BOTH,
        Form::PlainNext => PLAIN_NEXT,
        Form::PlainUntil => PLAIN_UNTIL,
        Form::PlainPrev => PLAIN_PREV,
        Form::PlainSince => PLAIN_SINCE,
        Form::ShortNext => SHORT_NEXT,
        Form::ShortUntil => SHORT_UNTIL,
        Form::ShortSince => SHORT_SINCE,
    }
}
