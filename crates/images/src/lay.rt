// A block of rows laid into the table as nodes.
ghost use Rattle.std.specs.Prelude.{◌≡◌, ◌+◌, length, IsTrue};
ghost use Rattle.images.specs.Emission.{Room, Follows};
ghost use Rattle.images.specs.Blocks.{is_fine, FineRows, SmallNames, Made, rows_in, laid};

use super::blocks;
use super::blocks::{NAMES, Row};
use rules::node::Node;

// The place of "·" among the names.
const DOT: usize = blocks::DOT as usize;

// The node of a row; the array says what its operands stand for.
fn made(row: Row, names: &[u16; NAMES]) -> Node
    requires { (IsTrue (is_fine row)) × (SmallNames names.now) }
    ensures { Made row names.now result }
{
    Node::new(row.0, names[row.1 as usize], names[row.2 as usize])
}

// The rows become nodes from number `at` on, each of them "·" of the next; the answer is the next number.
pub fn lay_block(table: &mut [u32], at: usize, rows: &[Row], names: [u16; NAMES]) -> usize
    requires { (Room (length rows.now) at table.old) × (FineRows rows.now) × (SmallNames names) }
    ensures end { result ≡ at + length rows.now }
    ensures laid { Follows (laid names at (rows_in rows.now)) table.old at result table.new }
{
    let mut named = names;
    for (i, row) in rows.iter().enumerate() {
        table[at + i] = made(*row, &named).word();
        named[DOT] = (at + i) as u16;
    }
    at + rows.len()
}
