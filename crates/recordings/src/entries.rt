// Entries of lent space that a heading counts.
ghost use Rattle.std.specs.Prelude.{◌≡◌, take};

// Those that are there: "entries past the count aren't read".
pub fn counted<T>(count: usize, entries: &[T]) -> &[T]
    ensures { result.now ≡ take count entries.now }
{
    &entries[..count.min(entries.len())]
}
