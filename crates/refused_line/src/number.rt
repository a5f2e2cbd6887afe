// The number of a line in its text.
ghost use Rattle.std.specs.Prelude.{◌≡◌};
ghost use Rattle.refused_line.specs.Numbering.{LinesCounted, line_number, LineStart};

use lines::first_line;

// How many lines a text has, the last one closed or not.
fn line_count(text: &[u8]) -> usize
    ensures { LinesCounted text.now result }
{
    let mut count = 0;
    let mut at = 0;
    while at < text.len() {
        let line = first_line(&text[at..]);
        at = at + line.next;
        count += 1;
    }
    count
}

// The number of the line that begins at byte `from`.
pub fn line_number(text: &[u8], from: usize) -> u32
    requires { LineStart from text.now }
    ensures { result ≡ line_number from text.now }
{
    line_count(&text[..from]) as u32 + 1
}
