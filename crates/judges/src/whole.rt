// Judging the whole recording.
ghost use Rattle.std.specs.Prelude.{◌≡◌};
ghost use Rattle.definitions.specs.Bounded.{or_else};
ghost use Rattle.definitions.specs.Tables.{table_refusal};
ghost use Rattle.rules.specs.Handed.{table_in};
ghost use Rattle.rules.specs.Refusals.{refusal_in};
ghost use Rattle.recordings.specs.Heading.{recording_in};
ghost use Rattle.recordings.specs.Joining.{joined_refusal};
ghost use Rattle.judges.specs.Whole.{WholeReady, WholeVerdicts, WholeJudged};

use super::verdicts::{Verdicts, at_tops};
use evaluation::evaluate;
use evaluation::traced::Traced;
use lent::clear;
use recordings::check::check_joined;
use recordings::heading::Recording;
use rules::limits::Limits;
use rules::refusal::Refusal;
use rules::rule::Table;
use rules::table_check::check_table;

// The table, then the recording and its controller.
fn check_whole(table: Table<'_>, recording: Recording<'_>, c: usize) -> Result<(), Refusal>
    ensures { refusal_in result ≡ or_else (table_refusal (table_in table.entry)) (joined_refusal (recording_in recording.entry) c) }
{
    check_table(table)?;
    check_joined(recording, c)
}

// An accepted table over the n states of an accepted recording: every atom is "read as recorded", so none is foreign.
// Only what no row covers is cleared.
pub fn judge_accepted_table(
    table: Table<'_>,
    n: usize,
    states: &[u64],
    c: usize,
    rows: &mut [u64],
) -> Verdicts
    requires { WholeReady (table_in table) n states.now c rows.old }
    ensures { WholeVerdicts (table_in table.entry) n states.now c rows.old result rows.new }
{
    let traced = Traced {
        states,
        count: n,
        controller: c,
        own: u32::MAX,
    };
    evaluate(table.nodes, table.count, traced, rows);
    let verdicts = at_tops(rows, table.weak_top, table.strong_top);
    clear(rows, table.count * Limits::PAIR_WORDS, Limits::ROWS_WORDS);
    verdicts
}

// "judge the whole recording": 13 leaves the lent rows alone, another refusal zeroes them.
pub fn judge_recording(
    table: Table<'_>,
    recording: Recording<'_>,
    c: usize,
    rows: &mut [u64],
) -> Result<Verdicts, Refusal>
    ensures { WholeJudged (table_in table.entry) (recording_in recording.entry) c rows.old result rows.new }
{
    if rows.len() < Limits::ROWS_WORDS {
        return Err(Refusal::LentShort);
    }
    if let Err(refusal) = check_whole(table, recording, c) {
        clear(rows, 0, Limits::ROWS_WORDS);
        return Err(refusal);
    }
    Ok(judge_accepted_table(table, recording.count, recording.states, c, rows))
}
