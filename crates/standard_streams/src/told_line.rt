// Where a refused line stands, told on standard error.
use joint_reading::scan::Text;
use refused_line::Line;
use std::io::Stderr;

// Says of which text the refused line is, and its number there: a line of three fields.
pub fn say_line(errors: Stderr, line: Line) {
    let text = match line.text {
        Text::Rule => "rule",
        Text::Recording => "recording",
    };
    let number = line.number;
    let _ = eprintln!(errors; "line\t{text}\t{number}");
}
