// Gauge lines: a gauge, and the atoms of the gauges before it.
ghost use Rattle.std.specs.Prelude.{◌≡◌, ◌&&◌};
ghost use Rattle.definitions.specs.Gauges.{gauge_word, among, any_set, gauge_fields};
ghost use Rattle.definitions.specs.Lines.{tab, has, up_to, same, line_length};
ghost use Rattle.definitions.specs.RecordingText.{gauge_line};
ghost use Rattle.gauges.specs.Held.{atoms_of};
ghost use Rattle.gauges.specs.Lines.{gauge_told, gauge_answer, gauge_next};

use super::gauge::Gauge;
use super::word;
use fields::{form, number};
use lines::{check_end, scan};
use rules::limits::Limits;
use rules::refusal::Refusal;

// Whether an atom has one of these gauges.
fn among(atom: u32, gauges: &[Gauge]) -> bool
    ensures { result ≡ among atom (atoms_of gauges.now) }
{
    gauges.iter().any(|gauge| atom == gauge.atom)
}

// Whether the bit of some gauge is set in a word.
pub fn any_set(gauges: &[Gauge], w: u32) -> bool
    ensures { result ≡ any_set (atoms_of gauges.now) w }
{
    gauges.iter().any(|gauge| word::has_atom(w, gauge.atom))
}

// The fields of a gauge line after those of the earlier gauges.
#[tactic(auto, using(crate::proofs::LineLaws::gauge_fields_laws))]
fn gauge_fields(earlier: &[Gauge], s: &[u8]) -> Result<Gauge, Refusal>
    ensures { gauge_told result ≡ gauge_answer (atoms_of earlier.now) (gauge_fields s.now) }
{
    let (first, second) = scan::split(s, scan::TAB).ok_or(Refusal::RecordingForm)?;
    let atom = number::decimal(first).ok_or(Refusal::RecordingForm)?;
    let threshold = measures::read(second)?;
    if Limits::ATOMS <= atom as usize {
        return Err(Refusal::RecordingLimits);
    }
    if among(atom, earlier) {
        return Err(Refusal::SecondGauge);
    }
    Ok(Gauge { atom, threshold })
}

// Whether a line opens as a gauge line does.
#[tactic(auto, using(crate::proofs::LineLaws::opens_is))]
pub fn is_gauge(s: &[u8]) -> bool
    ensures { result ≡ (same (up_to tab s.now) gauge_word && has tab s.now) }
{
    form::after_word(s, b"gauge").is_some()
}

// The next line, of `len` bytes, as a gauge line after those of the earlier gauges.
#[tactic(auto, using(crate::proofs::LineLaws::next_gauge_laws))]
pub fn next_gauge(earlier: &[Gauge], t: &[u8], len: usize) -> Result<Gauge, Refusal>
    requires { len ≡ line_length t.now }
    ensures { gauge_told result ≡ gauge_next (gauge_line (atoms_of earlier.now) t.now) }
{
    check_end(t, len, Refusal::RecordingLines, Refusal::RecordingForm)?;
    let fields = form::after_word(&t[..len], b"gauge").ok_or(Refusal::RecordingForm)?;
    gauge_fields(earlier, fields)
}
