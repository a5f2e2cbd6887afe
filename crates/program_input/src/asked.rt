// What the first line of the input of the program `why` asks for. The texts after it are not read here.
ghost use Rattle.std.specs.Prelude.{◌≡◌};
ghost use Rattle.program_input.specs.Asking.{told, asked_in};

use lines::{first_line, scan};

// A reading, weak or strong, of the texts.
#[derive(Clone, Copy)]
pub struct Asked<'a> {
    pub weak: bool,
    pub texts: &'a [u8],
}

// The first line is closed, and one of two words; a line that asks for nothing is handed back.
pub fn asked_by(input: &[u8]) -> Result<Asked<'_>, &[u8]>
    ensures { told result ≡ asked_in input.now }
{
    let first = first_line(input);
    let line = &input[..first.len];
    if first.len == input.len() {
        return Err(line);
    }
    let texts = &input[first.next..];
    if scan::same(line, b"weak") {
        return Ok(Asked { weak: true, texts });
    }
    if scan::same(line, b"strong") {
        return Ok(Asked { weak: false, texts });
    }
    Err(line)
}
