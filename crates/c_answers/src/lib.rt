// Each answer as C has it: its number, and its values in an array of fixed length, zeros on a refusal.
#![tactic(auto)]

ghost use Rattle.std.specs.Prelude.{◌≡◌, ◌∷◌, ◌++◌, replicate};
ghost use Rattle.definitions.specs.Limits.{accepted};
ghost use Rattle.rules.specs.Refusals.{number_of, refusal_in};
ghost use Rattle.rule_reader.specs.Reading.{read_answer as rule_read};
ghost use Rattle.recording_reader.specs.Reading.{read_answer as recording_read};
ghost use Rattle.judges.specs.Verdicts.{answer_of as judged};
ghost use Rattle.sessions.specs.Answers.{session_answer as session_judged};
ghost use Rattle.joint_reading.specs.Scanning.{part_of};
ghost use Rattle.joint_reading.specs.Joining.{heading_of};
ghost use Rattle.c_answers.specs.Values.{counted, rewritten, heading, part_values, session_values};

use images::Tops;
use joint_reading::scan::{Found, Text};
use judges::verdicts::Verdicts;
use recordings::heading::RecordingHeading;
use rules::refusal::Refusal;
use rules::rule::RuleHeading;

// A number and N values.
#[derive(Clone, Copy)]
pub struct Values<const N: usize> {
    pub number: u8,
    pub values: [usize; N],
}

impl<const N: usize> Values<N> {
    fn accepted(values: [usize; N]) -> Values<N>
        ensures number { result.number ≡ accepted }
        ensures values { result.values ≡ values.entry }
    {
        Values { number: 0, values }
    }

    // "a refusal carries its number alone": zeros beside it.
    fn refused(refusal: Refusal) -> Values<N>
        ensures number { result.number ≡ number_of refusal }
        ensures values { result.values ≡ replicate N 0 }
    {
        Values {
            number: refusal.number(),
            values: [0; N],
        }
    }

    // The values over lent space; the number is answered.
    pub fn lay(self, values: &mut [usize; N]) -> u8
        ensures number { result ≡ self.entry.number }
        ensures values { values.new ≡ self.entry.values }
    {
        let laid = self.values;
        *values = laid;
        self.number
    }
}

// Of what has no values.
pub fn number(answer: Result<(), Refusal>) -> u8
    ensures { result ≡ refusal_in answer }
{
    match answer {
        Ok(()) => 0,
        Err(refusal) => refusal.number(),
    }
}

// A length, or how many places or pairs there are.
pub fn of_count(answer: Result<usize, Refusal>) -> Values<1>
    ensures { result.number ∷ result.values ≡ heading 1 (counted answer) }
{
    match answer {
        Ok(count) => Values::accepted([count]),
        Err(refusal) => Values::refused(refusal),
    }
}

pub fn of_rule_read(answer: Result<RuleHeading, Refusal>) -> Values<2>
    ensures { result.number ∷ result.values ≡ heading 2 (rule_read answer) }
{
    match answer {
        Ok(rule) => Values::accepted([rule.controller, rule.count]),
        Err(refusal) => Values::refused(refusal),
    }
}

pub fn of_recording_read(answer: Result<RecordingHeading, Refusal>) -> Values<2>
    ensures { result.number ∷ result.values ≡ heading 2 (recording_read answer) }
{
    match answer {
        Ok(recording) => Values::accepted([recording.controllers, recording.count]),
        Err(refusal) => Values::refused(refusal),
    }
}

pub fn of_judgement(answer: Result<Verdicts, Refusal>) -> Values<2>
    ensures { result.number ∷ result.values ≡ heading 2 (judged answer) }
{
    match answer {
        Ok(verdicts) => Values::accepted([verdicts.weak as usize, verdicts.strong as usize]),
        Err(refusal) => Values::refused(refusal),
    }
}

// 1, then the verdicts; zeros where no state is held.
pub fn of_session_verdicts(answer: Result<Option<Verdicts>, Refusal>) -> Values<3>
    ensures { result.number ∷ result.values ≡ session_values (session_judged answer) }
{
    match answer {
        Ok(Some(verdicts)) => {
            Values::accepted([1, verdicts.weak as usize, verdicts.strong as usize])
        }
        Ok(None) => Values::accepted([0, 0, 0]),
        Err(refusal) => Values::refused(refusal),
    }
}

pub fn of_rewriting(answer: Result<Tops, Refusal>) -> Values<3>
    ensures { result.number ∷ result.values ≡ heading 3 (rewritten answer) }
{
    match answer {
        Ok(tops) => Values::accepted([tops.count, tops.weak, tops.strong]),
        Err(refusal) => Values::refused(refusal),
    }
}

// The heading of the joint reading, and of the part handed back: which text it lies in, start, length.
pub fn of_found(found: Found) -> Values<7>
    ensures { result.number ∷ result.values ≡ heading_of found ++ part_values (part_of found) }
{
    let text = match found.text {
        Text::Rule => 0,
        Text::Recording => 1,
    };
    match found.read {
        Ok(joined) => Values {
            number: 0,
            values: [
                joined.rule.controller,
                joined.rule.count,
                joined.recording.controllers,
                joined.recording.count,
                text,
                found.from,
                found.len,
            ],
        },
        Err(refusal) => Values {
            number: refusal.number(),
            values: [0, 0, 0, 0, text, found.from, found.len],
        },
    }
}
