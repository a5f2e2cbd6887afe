// The values at the end of an `at` line.
ghost use Rattle.std.specs.Prelude.{◌≡◌};
ghost use Rattle.definitions.specs.Measures.{measure};
ghost use Rattle.measures.specs.Answers.{limited};
ghost use Rattle.lines.specs.Told.{told};
ghost use Rattle.gauges.specs.Held.{gauge_in};
ghost use Rattle.gauges.specs.Values.{step_of, values_read};

use super::gauge::Gauge;
use super::word;
use lines::scan;
use measures::Flaw;
use rules::refusal::Refusal;

// One value more, after the word so far; a value outside its limits leaves no word.
#[tactic(auto, unfolding(crate::specs::Values::step_of))]
fn taken(sofar: Option<u32>, gauge: Gauge, s: &[u8]) -> Result<Option<u32>, Refusal>
    ensures { told result ≡ step_of sofar (gauge_in gauge) (limited (measure s.now)) }
{
    match measures::read(s) {
        Ok(value) => Ok(sofar.map(|word| word::finished_bit(word, gauge, value))),
        Err(Flaw::Outside) => Ok(None),
        Err(Flaw::Malformed) => Err(Refusal::RecordingForm),
    }
}

// One value for each gauge after the first field of `s`, and nothing more.
#[tactic(auto, using(crate::proofs::ValuesLaws::values_laws))]
pub fn values(gauges: &[Gauge], before: u32, s: &[u8]) -> Result<u32, Refusal>
    ensures { told result ≡ values_read gauges.now before s.now }
{
    let mut t = s;
    let mut tab = scan::until_byte(s, scan::TAB);
    let mut finished = Some(before);
    for gauge in gauges {
        if t.len() <= tab {
            return Err(Refusal::RecordingForm);
        }
        t = scan::after(t, tab);
        tab = scan::until_byte(t, scan::TAB);
        finished = taken(finished, *gauge, &t[..tab])?;
    }
    if tab < t.len() {
        return Err(Refusal::RecordingForm);
    }
    finished.ok_or(Refusal::RecordingLimits)
}
