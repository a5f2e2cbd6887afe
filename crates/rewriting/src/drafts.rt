// The nodes of a rule in turn: the opening, then both images of each.
ghost use Rattle.std.specs.Prelude.{◌≤◌, length};
ghost use Rattle.definitions.specs.Limits.{max_table_nodes};
ghost use Rattle.rewriting.specs.Drafts.{Ruled, Drawn};

use images::image::Image;
use images::{draw_image, opening};
use recordings::masks::is_own;
use rules::limits::Limits;
use rules::node::Node;

// How many nodes were emitted, and the image of the last of the rule's nodes.
#[derive(Clone, Copy)]
pub struct Draft {
    pub at: usize,
    pub last: Image,
}

// "Then each rule node in turn"; the array holds the images so far.
pub fn draw_images(table: &mut [u32], short: bool, mask: u32, nodes: &[u32]) -> Draft
    requires { (Ruled nodes.now) × (max_table_nodes ≤ length table.old) }
    ensures { Drawn short mask nodes.now table.old result table.new }
{
    let none = Image {
        weak: 0,
        strong: 0,
        tolerant: false,
    };
    let mut images = [none; Limits::RULE_NODES];
    let mut last = none;
    let mut at = opening(table);
    for (i, word) in nodes.iter().enumerate() {
        let n = Node::of_word(*word);
        let a = n.first as usize;
        let b = n.second as usize;
        let own = is_own(mask, a);
        last = draw_image(table, at, short, own, n, images[a], images[b]);
        images[i] = last;
        at = last.strong as usize + 1;
    }
    Draft { at, last }
}
