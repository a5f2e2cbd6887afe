// The images of one node of a rule, from those of its operands; the opening before the first and the closing after the last. `image`: their numbers; `blocks`:
// the documents' lists of nodes as data; `lay`: the loop that lays them.
#![tactic(auto)]

pub mod blocks;
pub mod image;
pub mod lay;

ghost use Rattle.std.specs.Prelude.{true, false, ◌≡◌, ◌<◌};
ghost use Rattle.definitions.specs.Nodes.{operand_span};
ghost use Rattle.definitions.specs.Rewriting.{opening};
ghost use Rattle.rules.specs.Kinds.{kind_in};
ghost use Rattle.rules.specs.Fits.{is_held};
ghost use Rattle.rules.specs.Meaning.{meaning};
ghost use Rattle.images.specs.Emission.{Room, Holds};
ghost use Rattle.images.specs.Images.{meant, Begun, Named, form_by, tolerant_by, Stepped, ClosedBy};

use blocks::{CLOSING, Form, NAMES, OPENING, block_of};
use image::Image;
use lay::lay_block;
use rules::choice::pick;
use rules::kind::Kind;
use rules::node::Node;

// "The result carries node count and both tops."
#[derive(Clone, Copy)]
pub struct Tops {
    pub count: usize,
    pub weak: usize,
    pub strong: usize,
}

// "Opening, numbers 0 to 10"
pub fn opening(table: &mut [u32]) -> usize
    requires { Room 11 0 table.old }
    ensures { Holds opening table.old result table.new }
{
    let none = [0, 1, 2, 3, 4, 5, 6, 7, 8, 9, 0, 0, 0, 0, 0, 0, 0, 0];
    lay_block(table, 0, OPENING, none)
}

// What the operands of rows stand for as a block begins at number `at`, in the order of their names: `weak` of its rows are the weak image's, n is the
// node's first operand, p and q are its operands' images.
fn named_operands(at: usize, weak: usize, n: u16, p: Image, q: Image) -> [u16; NAMES]
    requires { (Begun at weak) × (n < operand_span) }
    ensures { Named at weak n (meant p) (meant q) result }
{
    let dot = (at - 1) as u16;
    let x = at as u16;
    let g = (at + weak) as u16;
    [
        0, 1, 2, 3, 4, 5, 6, 7, 8, 9, dot, p.weak, p.strong, q.weak, q.strong, x, g, n,
    ]
}

// The form of a node: that of its kind, but for an own atom, a short "next of a tolerant operand", a short "until of two tolerant operands" and a short
// "Since of two tolerant operands". No rule holds run, end or an unknown kind.
fn form_of(short: bool, own: bool, kind: Kind, p: bool, q: bool) -> Form
    ensures { result ≡ form_by short own p q (kind_in kind) }
{
    match kind {
        Kind::Atom => pick(own, Form::OwnAtom, Form::ForeignAtom),
        Kind::Not => Form::NotBoth,
        Kind::Or => Form::OrBoth,
        Kind::Next => pick(short & p, Form::ShortNext, Form::PlainNext),
        Kind::Until => pick(short & (p & q), Form::ShortUntil, Form::PlainUntil),
        Kind::Prev => Form::PlainPrev,
        Kind::Since => pick(short & (p & q), Form::ShortSince, Form::PlainSince),
        Kind::True | Kind::Run | Kind::End | Kind::Unknown(_) => Form::TrueItself,
    }
}

// "Tolerant: true, own atom, every until; not and or of tolerant operands; nothing else", and by document 02 every prev and "Since of two tolerant
// operands".
fn tolerant_of(own: bool, kind: Kind, p: bool, q: bool) -> bool
    ensures { result ≡ tolerant_by own p q (kind_in kind) }
{
    match kind {
        Kind::True | Kind::Until | Kind::Prev => true,
        Kind::Atom => own,
        Kind::Not => p,
        Kind::Or | Kind::Since => p & q,
        Kind::Next | Kind::Run | Kind::End | Kind::Unknown(_) => false,
    }
}

// "each rule node in turn, weak image w first, then strong image s"
pub fn draw_image(
    table: &mut [u32],
    at: usize,
    short: bool,
    own: bool,
    n: Node,
    p: Image,
    q: Image,
) -> Image
    requires { (0 < at) × (Room 11 at table.old) × (is_held false (kind_in n.kind) ≡ true) × (n.first < operand_span) }
    ensures { Stepped short own (meant p) (meant q) (meaning n) table.old at result table.new }
{
    let block = block_of(form_of(short, own, n.kind, p.tolerant, q.tolerant));
    let names = named_operands(at, block.weak, n.first, p, q);
    let end = lay_block(table, at, block.rows, names);
    Image {
        weak: (at + block.weak - 1) as u16,
        strong: (end - 1) as u16,
        tolerant: tolerant_of(own, n.kind, p.tolerant, q.tolerant),
    }
}

// The closing of a rule, from its images.
pub fn closing(table: &mut [u32], at: usize, rule: Image) -> Tops
    requires { (0 < at) × (Room 8 at table.old) }
    ensures { ClosedBy (meant rule) table.old at result table.new }
{
    let names = named_operands(at, CLOSING.weak, 0, rule, rule);
    let end = lay_block(table, at, CLOSING.rows, names);
    Tops {
        count: end,
        weak: at + CLOSING.weak - 1,
        strong: end - 1,
    }
}
