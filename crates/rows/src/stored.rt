// Rows in lent space, three words each: low, high, count.
ghost use Rattle.std.specs.Prelude.{◌≡◌, ◌++◌, ◌≤◌, ◌+◌, length, take, drop};
ghost use Rattle.definitions.specs.Readings.{row_words};
ghost use Rattle.rows.specs.Marks.{marks, Whole};
ghost use Rattle.rows.specs.Stored.{row_at};

use super::Row;

#[tactic(auto, unfolding(crate::specs::Stored::row_at))]
pub fn load(rows: &[u64], at: usize) -> Row
    requires { at + 3 ≤ length rows.now }
    ensures { result ≡ row_at rows.now at }
{
    Row {
        words: [rows[at], rows[at + 1]],
        count: rows[at + 2] as usize,
    }
}

pub fn store(rows: &mut [u64], at: usize, row: Row)
    requires { (Whole row) × (at + 3 ≤ length rows.old) }
    ensures { rows.new ≡ take at rows.old ++ (row_words (marks row) ++ drop (at + 3) rows.old) }
{
    rows[at] = row.low();
    rows[at + 1] = row.high();
    rows[at + 2] = row.count as u64;
}
