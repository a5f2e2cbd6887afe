// The nodes that come out.
ghost use Rattle.std.specs.Prelude.{◌≡◌, ◌-◌, [], ◌∷◌, replicate, length};
ghost use Rattle.definitions.specs.Limits.{max_rule_nodes};
ghost use Rattle.definitions.specs.Nodes.{node};
ghost use Rattle.rules.specs.Kinds.{kind_in};
ghost use Rattle.one_line_signs.specs.Signs.{prefix_in};
ghost use Rattle.one_line_readers.specs.Nodes.{prefix_first, prefix_last, not_words, dual_words, words};
ghost use Rattle.one_line_readers.specs.Laying.{Laid, NodeThere, Space, SpaceFor, SpaceBehind, SpaceOver, SpaceLast};

use one_line_signs::sign::Prefix;
use rules::kind::Kind;
use rules::limits::Limits;
use rules::node::Node;

// Their words, and how many they are.
#[derive(Drop)]
pub struct Emitted {
    pub words: [u32; Limits::RULE_NODES],
    pub count: usize,
}

impl Emitted {
    // Before the first node.
    pub fn start() -> Emitted
        ensures { (result.count ≡ 0) × (result.words ≡ replicate max_rule_nodes 0) }
    {
        Emitted {
            words: [0; Limits::RULE_NODES],
            count: 0,
        }
    }

    // The node that came out last.
    pub fn last(&self) -> u16
        requires { NodeThere self.now }
        ensures { result ≡ self.now.count - 1 }
    {
        (self.count - 1) as u16
    }

    // One node more.
    #[tactic(auto, using(crate::proofs::Laying::laid_one))]
    pub fn put(&mut self, kind: Kind, first: u16, second: u16)
        requires { SpaceFor kind first second self.old }
        ensures { Laid (words (node (kind_in kind) first second ∷ [])) self.old self.new }
    {
        let at = self.count;
        self.words[at] = Node::new(kind, first, second).word();
        self.count = at + 1;
    }

    // Not of the last node.
    pub fn not(&mut self)
        requires { SpaceBehind 1 self.old }
        ensures { Laid (not_words self.old.count) self.old self.new }
    {
        let p = self.last();
        self.put(Kind::Not, p, 0);
    }

    // An operator over a node and the last one.
    pub fn join(&mut self, kind: Kind, first: u16)
        requires { SpaceOver 1 kind first self.old }
        ensures { Laid (words (node (kind_in kind) first (self.old.count - 1) ∷ [])) self.old self.new }
    {
        let q = self.last();
        self.put(kind, first, q);
    }

    // Not of the last node, an operator over a node and that, not of this: as in `!(!p|!q)` and `!F!p`.
    #[tactic(auto, using(crate::proofs::Laying::laid_dual))]
    pub fn dual(&mut self, kind: Kind, first: u16)
        requires { SpaceOver 3 kind first self.old }
        ensures { Laid (dual_words (kind_in kind) first self.old.count) self.old self.new }
    {
        self.not();
        self.join(kind, first);
        self.not();
    }

    // What stands before the operand of a prefix; the number of the first node.
    #[tactic(auto, using(crate::proofs::Laying::laid_none), unfolding(crate::specs::Nodes::prefix_first))]
    pub fn open_prefix(&mut self, prefix: Prefix) -> u16
        requires { Space (length (prefix_first (prefix_in prefix))) self.old }
        ensures laid { Laid (words (prefix_first (prefix_in prefix))) self.old self.new }
        ensures number { result ≡ self.old.count }
    {
        let b = self.count as u16;
        if matches!(prefix, Prefix::Future | Prefix::Always) {
            self.put(Kind::True, 0, 0);
        }
        b
    }

    // What follows the operand of a prefix, whose nodes begin at node b.
    #[tactic(auto, unfolding(crate::specs::Nodes::prefix_last))]
    pub fn close_prefix(&mut self, prefix: Prefix, b: u16)
        requires { SpaceLast (prefix_in prefix) b self.old }
        ensures { Laid (words (prefix_last (prefix_in prefix) b self.old.count)) self.old self.new }
    {
        let p = self.last();
        match prefix {
            Prefix::Not => self.not(),
            Prefix::Next => self.put(Kind::Next, p, 0),
            Prefix::Prev => self.put(Kind::Prev, p, 0),
            Prefix::Future => self.join(Kind::Until, b),
            Prefix::Always => self.dual(Kind::Until, b),
        }
    }
}
