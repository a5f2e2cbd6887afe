// What one pass counts.
ghost use Rattle.std.specs.Prelude.{◌≡◌, ◌≤◌, length};
ghost use Rattle.definitions.specs.Limits.{max_line_bytes};
ghost use Rattle.theorems.proofs.Phrases.{sign_nodes, sign_low};
ghost use Rattle.one_line_signs.specs.Signs.{sign_in};
ghost use Rattle.one_line_signs.specs.Tallies.{may_stand, due_after, open_after, Few, Stepped, Tallied};

use super::sign::{Infix, Prefix, Sign};
use rules::limits::Limits;

// The signs so far: whether each stands where it may, whether an operand is due, the brackets that are open, the most that were, the
// nodes that the signs add, and whether each atom is below its limit.
#[derive(Clone, Copy)]
pub struct Tally {
    pub placed: bool,
    pub due: bool,
    pub opened: usize,
    pub most: usize,
    pub nodes: usize,
    pub low_atoms: bool,
}

// Whether a sign may stand where an operand is due, or else an operator.
fn may_stand(sign: Sign, due: bool, opened: usize) -> bool
    ensures { result ≡ may_stand (sign_in sign) due opened }
{
    match sign {
        Sign::True | Sign::Atom(_) | Sign::Prefix(_) | Sign::Opening => due,
        Sign::Infix(_) => !due,
        Sign::Closing => !due & (0 < opened),
    }
}

// Whether an operand is due after a sign.
fn due_after(sign: Sign) -> bool
    ensures { result ≡ due_after (sign_in sign) }
{
    matches!(sign, Sign::Prefix(_) | Sign::Infix(_) | Sign::Opening)
}

// How many brackets are open after a sign.
fn open_after(sign: Sign, opened: usize) -> usize
    requires { opened ≤ max_line_bytes }
    ensures { result ≡ open_after (sign_in sign) opened }
{
    match sign {
        Sign::Opening => opened + 1,
        Sign::Closing => opened.saturating_sub(1),
        _ => opened,
    }
}

// How many nodes a sign adds.
#[tactic(auto, unfolding(theorems::proofs::Phrases::sign_nodes, theorems::proofs::Phrases::prefix_nodes, theorems::proofs::Phrases::infix_nodes))]
fn nodes_of(sign: Sign) -> usize
    ensures { result ≡ sign_nodes (sign_in sign) }
{
    match sign {
        Sign::Opening | Sign::Closing => 0,
        Sign::Prefix(Prefix::Future) | Sign::Infix(Infix::Implies) => 2,
        Sign::Prefix(Prefix::Always) => 4,
        Sign::Infix(Infix::And) => 4,
        _ => 1,
    }
}

// Whether a sign is no atom above the limit.
#[tactic(auto, unfolding(theorems::proofs::Phrases::sign_low))]
fn is_low(sign: Sign) -> bool
    ensures { result ≡ sign_low (sign_in sign) }
{
    match sign {
        Sign::Atom(n) => n < Limits::ATOMS as u8,
        _ => true,
    }
}

impl Tally {
    // Before the first sign.
    const START: Tally = Tally {
        placed: true,
        due: true,
        opened: 0,
        most: 0,
        nodes: 0,
        low_atoms: true,
    };

    // One sign more.
    #[tactic(auto, using(crate::proofs::TallyLaws::with_laws))]
    fn with(self, sign: Sign) -> Tally
        requires { Few self }
        ensures { Stepped self sign result }
    {
        let opened = open_after(sign, self.opened);
        Tally {
            placed: self.placed & may_stand(sign, self.due, self.opened),
            due: due_after(sign),
            opened,
            most: self.most.max(opened),
            nodes: self.nodes + nodes_of(sign),
            low_atoms: self.low_atoms & is_low(sign),
        }
    }
}

// All signs.
#[tactic(auto, using(crate::proofs::TallyLaws::count_laws))]
pub fn count(signs: &[Sign]) -> Tally
    requires { length signs.now ≤ max_line_bytes }
    ensures { Tallied signs.now result }
{
    let mut t = Tally::START;
    for sign in signs {
        t = t.with(*sign);
    }
    t
}
