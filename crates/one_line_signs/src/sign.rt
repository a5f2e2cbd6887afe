// The signs of a rule in one line; specs/Signs.antt is their meaning.

#[derive(Clone, Copy)]
pub enum Prefix {
    Not,
    Next,
    Prev,
    Future,
    Always,
}

// The signs between two operands, loosest first.
#[derive(Clone, Copy, PartialEq, Eq)]
pub enum Infix {
    Implies,
    Or,
    And,
    Until,
    Since,
}

// An atom's number above every limit counts as the limit.
#[derive(Clone, Copy)]
pub enum Sign {
    True,
    Atom(u8),
    Prefix(Prefix),
    Infix(Infix),
    Opening,
    Closing,
}
