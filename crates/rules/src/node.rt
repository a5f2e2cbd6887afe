// A node of a table: its kind and two operands, and the word that it is in lent space.
ghost use Rattle.std.specs.Prelude.{◌≡◌};
ghost use Rattle.definitions.specs.Nodes.{node_word};
ghost use Rattle.rules.specs.Meaning.{meaning, OfWord, Wordable};

use super::kind::Kind;

#[derive(Clone, Copy)]
pub struct Node {
    pub kind: Kind,
    pub first: u16,
    pub second: u16,
}

impl Node {
    // The places of a word: the kind below KIND_SPAN, the first operand below OPERAND_SPAN, the second in the rest.
    pub const KIND_SPAN: u32 = 256;

    pub const OPERAND_SPAN: u32 = 4096;

    pub const SECOND_PLACE: u32 = Node::KIND_SPAN * Node::OPERAND_SPAN;

    // An unused operand is 0.
    pub fn new(kind: Kind, first: u16, second: u16) -> Node
        ensures { result ≡ record { kind = kind; first = first; second = second } }
    {
        Node {
            kind,
            first,
            second,
        }
    }

    // Every word is a node.
    pub fn of_word(w: u32) -> Node
        ensures { OfWord w result }
    {
        Node {
            kind: Kind::from((w % Node::KIND_SPAN) as u8),
            first: (w / Node::KIND_SPAN % Node::OPERAND_SPAN) as u16,
            second: (w / Node::SECOND_PLACE) as u16,
        }
    }

    pub fn word(self) -> u32
        requires { Wordable self }
        ensures { result ≡ node_word (meaning self) }
    {
        self.kind.number() as u32
            + self.first as u32 * Node::KIND_SPAN
            + self.second as u32 * Node::SECOND_PLACE
    }
}
