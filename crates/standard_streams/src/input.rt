// Standard input, read to its end.
ghost use Rattle.std.specs.Prelude.{IfOk};
ghost use Rattle.standard_streams.specs.Input.{IsFront};

use std::io::{self, Read, Stdin};

// Reads until `space` is full or the input ends, and hands back what was read.
pub fn read_input(mut input: Stdin, space: &mut [u8]) -> io::Result<&[u8]>
    ensures { IfOk result (λ read. IsFront space.entry read) }
{
    let mut count = 0;
    while count < space.len() {
        match input.read(&mut space[count..])? {
            0 => break,
            more => count += more,
        }
    }
    Ok(&space[..count])
}
