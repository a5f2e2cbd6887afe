// Held atoms: own atoms of the controllers that don't run in a state, which the next state may not change.
ghost use Rattle.std.specs.Prelude.{◌≡◌, ◌≤◌, take};
ghost use Rattle.definitions.specs.Limits.{max_controllers};
ghost use Rattle.definitions.specs.Recordings.{output_broken};
ghost use Rattle.recordings.specs.Held.{held_by, held_table, held_group, held_at, held_changed, TablesOf};

use super::entries::counted;
use super::masks::mask_at;
use super::state::{atoms_of, marks_of};
use rules::choice::pick;

// Four run marks each look up a table: two tables serve this many controllers.
const TWO_TABLES: usize = 8;

// The atoms that a state of these run marks holds, from one mask to the next: for a single state, where a table wouldn't pay.
fn held_by(controllers: usize, masks: &[u32], marks: u64) -> u32
    requires { controllers ≤ max_controllers }
    ensures { result ≡ held_by controllers masks.now marks }
{
    let mut held: u32 = 0;
    for (c, mask) in counted(controllers, masks).iter().enumerate() {
        held = pick((marks >> c) % 2 == 1, held, held | *mask);
    }
    held
}

// What four masks hold, for each word of four run marks.
fn held_table(a: u32, b: u32, c: u32, d: u32) -> [u32; 16]
    ensures { result ≡ held_table a b c d }
{
    [
        a | b | c | d,
        b | c | d,
        a | c | d,
        c | d,
        a | b | d,
        b | d,
        a | d,
        d,
        a | b | c,
        b | c,
        a | c,
        c,
        a | b,
        b,
        a,
        0,
    ]
}

// The table of the four controllers from `first` on; those past the last have no atoms.
fn held_group(controllers: usize, masks: &[u32], first: usize) -> [u32; 16]
    requires { first ≤ max_controllers }
    ensures { result ≡ held_group (take controllers masks.now) first }
{
    let own = counted(controllers, masks);
    let a = mask_at(own, first);
    let b = mask_at(own, first + 1);
    let c = mask_at(own, first + 2);
    let d = mask_at(own, first + 3);
    held_table(a, b, c, d)
}

// The third table, of controllers 8 to 10: nothing where there are none.
fn held_top(controllers: usize, masks: &[u32]) -> [u32; 16]
    ensures { result ≡ held_group (take controllers masks.now) 8 }
{
    if controllers <= TWO_TABLES {
        return [0; 16];
    }
    held_group(controllers, masks, TWO_TABLES)
}

// What the controllers of a recording hold: of 0 to 3, of 4 to 7 and of 8 to 10.
#[derive(Clone, Copy)]
pub struct Tables {
    pub low: [u32; 16],
    pub high: [u32; 16],
    pub top: [u32; 16],
}

impl Tables {
    pub fn new(controllers: usize, masks: &[u32]) -> Tables
        ensures { TablesOf (take controllers masks.now) result }
    {
        Tables {
            low: held_group(controllers, masks, 0),
            high: held_group(controllers, masks, 4),
            top: held_top(controllers, masks),
        }
    }

    // Looked up by run marks, so that no branch depends on them.
    pub fn at(&self, controllers: usize, marks: u64) -> u32
        ensures { result ≡ held_at controllers self.now marks }
    {
        let held = self.low[(marks % 16) as usize] | self.high[(marks / 16 % 16) as usize];
        if controllers <= TWO_TABLES {
            return held;
        }
        held | self.top[(marks / 256 % 16) as usize]
    }
}

pub fn held_changed(held: u32, prior: u64, state: u64) -> bool
    ensures { result ≡ held_changed held prior state }
{
    held & (atoms_of(prior) ^ atoms_of(state)) != 0
}

pub fn output_broken(controllers: usize, masks: &[u32], prior: u64, state: u64) -> bool
    requires { controllers ≤ max_controllers }
    ensures { result ≡ output_broken controllers masks.now prior state }
{
    held_changed(held_by(controllers, masks, marks_of(prior)), prior, state)
}
