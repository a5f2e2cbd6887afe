// The gauge lines of a recording text, up to the first other line or refusal.
ghost use Rattle.std.specs.Prelude.{◌≤◌, length, drop, []};
ghost use Rattle.definitions.specs.Limits.{max_gauges};
ghost use Rattle.definitions.specs.RecordingText.{scan_gauges};
ghost use Rattle.gauges.specs.Scanning.{GaugesScanned};

use super::gauge::Gauges;
use super::line::{is_gauge, next_gauge};
use lines::{CutShort, Stop, first_line};
use rules::limits::Limits;

// The gauge lines from `start` on.
#[tactic(auto, using(crate::proofs::ScanLaws::scan_gauges_laws))]
pub fn scan_gauges(text: &[u8], start: usize) -> Result<Gauges, CutShort<Gauges>>
    requires { start ≤ length text.now }
    ensures { GaugesScanned (scan_gauges max_gauges [] (drop start text.now)) text.now result }
{
    let mut gauges = Gauges::none(start);
    for _ in 0..Limits::GAUGES {
        let at = gauges.at;
        let t = &text[at..];
        let line = first_line(t);
        if !is_gauge(&t[..line.len]) {
            return Ok(gauges);
        }
        match next_gauge(gauges.held(), t, line.len) {
            Ok(gauge) => gauges.push(gauge, at + line.next),
            Err(refusal) => {
                let stop = Stop { refusal, at };
                return Err(CutShort { read: gauges, stop });
            }
        }
    }
    Ok(gauges)
}
