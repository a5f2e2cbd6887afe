// Lent space: zeroing a part of it, and laying words over its start. What an operation leaves there is in proofs/LeftLaws.
#![tactic(auto)]

ghost use Rattle.std.specs.Prelude.{◌≡◌, ◌≤◌, ◌++◌, length, take, drop};
ghost use Rattle.definitions.specs.Limits.{accepted};
ghost use Rattle.definitions.specs.Operations.{left};
ghost use Rattle.lent.specs.Space.{filled, Layable};

// The entries of lent space: bytes of a text, words of nodes, masks or places, longs of states or rows.
pub trait Zero: Copy {
    ghost ZERO: { Self };

    const ZERO: Self;
}

impl Zero for u8 {
    ghost ZERO = { 0 };

    const ZERO: u8 = 0;
}

impl Zero for u32 {
    ghost ZERO = { 0 };

    const ZERO: u32 = 0;
}

impl Zero for u64 {
    ghost ZERO = { 0 };

    const ZERO: u64 = 0;
}

// Zeroes the entries from..to.
pub fn clear<T: Zero>(entries: &mut [T], from: usize, to: usize)
    requires { (from ≤ to) × (to ≤ length entries.old) }
    ensures { entries.new ≡ filled T.ZERO entries.old from to }
{
    for entry in entries[from..to].iter_mut() {
        *entry = T::ZERO;
    }
}

// Copies the first n words to the start of lent space: one by one, since for `copy_from_slice` an archive for C would need `memmove` from outside.
fn copy(words: &[u32], n: usize, lent: &mut [u32])
    requires { (n ≤ length words.now) × (n ≤ length lent.old) }
    ensures { lent.new ≡ take n words.now ++ drop n lent.old }
{
    for i in 0..n {
        lent[i] = words[i];
    }
}

// Lays the first n words over lent space: "Accepted, unused entries are zero".
pub fn lay(words: &[u32], n: usize, full: usize, lent: &mut [u32])
    requires { Layable words.now n full lent.old }
    ensures { lent.new ≡ left accepted full (take n words.now) lent.old }
{
    copy(words, n, lent);
    clear(lent, n, full);
}
