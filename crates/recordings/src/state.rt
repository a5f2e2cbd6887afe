// A state in lent space is one word: its atoms in the low half, the run marks above.
ghost use Rattle.std.specs.Prelude.{◌≡◌, ◌<◌};
ghost use Rattle.definitions.specs.Limits.{atom_count};
ghost use Rattle.definitions.specs.Recordings.{state_of, atoms_of, marks_of, marked};

use rules::limits::Limits;

// There are this many words of atoms.
pub const ATOM_WORDS: u64 = 1 << Limits::ATOMS;

// The marks stand above the atoms.
pub fn state_of(marks: u32, word: u32) -> u64
    ensures { result ≡ state_of marks word }
{
    ((marks as u64) << Limits::ATOMS) + word as u64
}

pub fn atoms_of(state: u64) -> u32
    ensures { result ≡ atoms_of state }
{
    (state % ATOM_WORDS) as u32
}

pub fn marks_of(state: u64) -> u64
    ensures { result ≡ marks_of state }
{
    state >> Limits::ATOMS
}

// Controller c is marked in this state; that a mark in the last state is no run (`runs_at`) is the caller's to know. One shift, since a pass over the states
// asks nothing else of the marks.
pub fn marked(c: usize, state: u64) -> bool
    requires { c < atom_count }
    ensures { result ≡ marked c state }
{
    (state >> (Limits::ATOMS + c)) % 2 == 1
}
