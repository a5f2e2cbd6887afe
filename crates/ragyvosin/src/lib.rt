// The operations of document 01, reading a rule in one line, the readings behind a verdict, sessions, and archive texts: each answer and each lent slice is what the definition
// of its operation says, on every input. `rule_read` to `rewritten` list document 01's number and values for each case of an answer.
// What these contracts give together: `same_verdicts_all_four_times` (proofs/SameVerdicts), schedule independence, and `same_bits_same_verdict`
// (proofs/SameEvidence), what the readings behind a verdict promise; `announced_verdicts_stay` (proofs/EarlyVerdicts), which verdicts stay when the
// recording goes on; `runs_as_from_the_start` and `replaced_as_opened` (proofs/SessionRuns), what a session answers.
#![tactic(auto)]

ghost use Rattle.std.specs.Prelude.{◌≡◌, true, false, [], eqb, get_or};
ghost use Rattle.definitions.specs.Tables.{rule_of, table_of};
ghost use Rattle.definitions.specs.Recordings.{recording_of};
ghost use Rattle.definitions.specs.Operations.{read_rule_answer, read_rule_nodes, write_rule_answer, write_rule_text, read_recording_answer, read_recording_masks, read_recording_states};
ghost use Rattle.definitions.specs.Operations.{read_joint_heading, read_joint_nodes, read_joint_masks, read_joint_states, read_joint_part, project_answer, project_places, judge_local_answer};
ghost use Rattle.definitions.specs.Operations.{evidence_answer, evidence_pairs, rewrite_answer, rewrite_table, judge_recording_answer, judge_recording_rows};
ghost use Rattle.definitions.specs.Operations.{to_archive_answer, to_archive_text, from_archive_answer, from_archive_text};
ghost use Rattle.definitions.specs.OneLine.{read_line_answer, read_line_nodes};
ghost use Rattle.definitions.specs.Sessions.{lent_space, open_number, arrive_number, withdraw_number, replace_number, leaves, Open, Arrive, Withdraw, Replace, verdicts_answer};
ghost use Rattle.rules.specs.Refusals.{refusal_in};
ghost use Rattle.rule_reader.specs.Reading.{read_answer as rule_read};
ghost use Rattle.rule_writer.specs.Writing.{write_answer as rule_written};
ghost use Rattle.recording_reader.specs.Reading.{read_answer as recording_read};
ghost use Rattle.projection.specs.Answers.{answer_of as projected};
ghost use Rattle.judges.specs.Verdicts.{answer_of as judged};
ghost use Rattle.sessions.specs.Answers.{session_answer as session_judged, says_none};
ghost use Rattle.evidence.specs.Answers.{pairs_answer as explained};
ghost use Rattle.ragyvosin.specs.Results.{rewritten};
ghost use Rattle.archives.specs.Converting.{text_answer as text_written};
ghost use Rattle.ragyvosin.specs.Parts.{place_in, bytes_in};

pub use images::Tops;
pub use judges::verdicts::Verdicts;
use recordings::heading::Recording;
pub use recordings::heading::RecordingHeading;
pub use rules::refusal::Refusal;
pub use rules::rule::RuleHeading;
use rules::rule::{Rule, Table};

// "read a rule (controller, count, nodes)"
pub fn read_rule(text: &[u8], nodes: &mut [u32]) -> Result<RuleHeading, Refusal>
    ensures result_value { rule_read result ≡ read_rule_answer text.now nodes.old }
    ensures nodes_after { nodes.new ≡ read_rule_nodes text.now nodes.old }
{
    rule_reader::read_rule(text, nodes)
}

// "Rules in one line": "the controller is given beside the line"; answers as reading a rule does
pub fn read_line(controller: usize, line: &[u8], nodes: &mut [u32]) -> Result<RuleHeading, Refusal>
    ensures result_value { rule_read result ≡ read_line_answer controller line.now nodes.old }
    ensures nodes_after { nodes.new ≡ read_line_nodes controller line.now nodes.old }
{
    one_line::read_line(controller, line, nodes)
}

// "write one (length, text)"
pub fn write_rule(
    controller: usize,
    count: usize,
    nodes: &[u32],
    text: &mut [u8],
) -> Result<usize, Refusal>
    ensures result_value { rule_written result ≡ write_rule_answer (rule_of controller count nodes.now) text.old }
    ensures text_after { text.new ≡ write_rule_text (rule_of controller count nodes.now) text.old }
{
    let rule = Rule {
        controller,
        count,
        nodes,
    };
    rule_writer::write_rule(rule, text)
}

// "read a recording (C, N, masks, states)"
pub fn read_recording(
    text: &[u8],
    masks: &mut [u32],
    states: &mut [u64],
) -> Result<RecordingHeading, Refusal>
    ensures result_value { recording_read result ≡ read_recording_answer text.now masks.old states.old }
    ensures masks_after { masks.new ≡ read_recording_masks text.now masks.old states.old }
    ensures states_after { states.new ≡ read_recording_states text.now masks.old states.old }
{
    recording_reader::read_recording(text, masks, states)
}

// "the joint reading": hands back the refused line; the heading is the number, controller, node count, C and N
pub fn read_joint<'a>(
    rule: &'a [u8],
    recording: &'a [u8],
    nodes: &mut [u32],
    masks: &mut [u32],
    states: &mut [u64],
    heading: &mut [u32; 5],
) -> &'a [u8]
    ensures ref_ptr_value { result.ref_ptr ≡ place_in rule.entry recording.entry (read_joint_part rule.now recording.now nodes.old masks.old states.old) }
    ensures result_value { result.now ≡ bytes_in rule.entry recording.entry (read_joint_part rule.now recording.now nodes.old masks.old states.old) }
    ensures heading_after { heading.new ≡ read_joint_heading rule.now recording.now nodes.old masks.old states.old }
    ensures nodes_after { nodes.new ≡ read_joint_nodes rule.now recording.now nodes.old masks.old states.old }
    ensures masks_after { masks.new ≡ read_joint_masks rule.now recording.now nodes.old masks.old states.old }
    ensures states_after { states.new ≡ read_joint_states rule.now recording.now nodes.old masks.old states.old }
{
    joint_reading::read_joint(rule, recording, nodes, masks, states, heading)
}

// "project (recording and c)": the length of the local trace, and its places
pub fn project(
    controllers: usize,
    count: usize,
    masks: &[u32],
    states: &[u64],
    c: usize,
    places: &mut [u32],
) -> Result<usize, Refusal>
    ensures result_value { projected result ≡ project_answer (recording_of controllers count masks.now states.now) c places.old }
    ensures places_after { places.new ≡ project_places (recording_of controllers count masks.now states.now) c places.old }
{
    let recording = Recording {
        controllers,
        count,
        masks,
        states,
    };
    projection::project(recording, c, places)
}

// "judge a rule on its local trace (rule and recording, for the rule's controller)": weak and strong verdict
pub fn judge_local(
    controller: usize,
    count: usize,
    nodes: &[u32],
    controllers: usize,
    states_count: usize,
    masks: &[u32],
    states: &[u64],
) -> Result<Verdicts, Refusal>
    ensures { judged result ≡ judge_local_answer (rule_of controller count nodes.now) (recording_of controllers states_count masks.now states.now) }
{
    let rule = Rule {
        controller,
        count,
        nodes,
    };
    let recording = Recording {
        controllers,
        count: states_count,
        masks,
        states,
    };
    judges::local::judge_local(rule, recording)
}

// "the readings .. that decide the weak or the strong verdict, as chosen": how many pairs of a node and a place, and the pairs
pub fn evidence(
    controller: usize,
    count: usize,
    nodes: &[u32],
    controllers: usize,
    states_count: usize,
    masks: &[u32],
    states: &[u64],
    weak: bool,
    pairs: &mut [u32],
) -> Result<usize, Refusal>
    ensures result_value { explained result ≡ evidence_answer (rule_of controller count nodes.now) (recording_of controllers states_count masks.now states.now) weak pairs.old }
    ensures pairs_after { pairs.new ≡ evidence_pairs (rule_of controller count nodes.now) (recording_of controllers states_count masks.now states.now) weak pairs.old }
{
    let rule = Rule {
        controller,
        count,
        nodes,
    };
    let recording = Recording {
        controllers,
        count: states_count,
        masks,
        states,
    };
    evidence::evidence(rule, recording, weak, pairs)
}

// "rewrite plain or short (rule and own mask, any 32 bits)": "node count and both tops", and the table
pub fn rewrite_plain(
    controller: usize,
    count: usize,
    nodes: &[u32],
    mask: u32,
    table: &mut [u32],
) -> Result<Tops, Refusal>
    ensures result_value { rewritten result ≡ rewrite_answer false (rule_of controller count nodes.now) mask table.old }
    ensures table_after { table.new ≡ rewrite_table false (rule_of controller count nodes.now) mask table.old }
{
    let rule = Rule {
        controller,
        count,
        nodes,
    };
    rewriting::rewrite_plain(rule, mask, table)
}

// "The short rewriting"
pub fn rewrite_short(
    controller: usize,
    count: usize,
    nodes: &[u32],
    mask: u32,
    table: &mut [u32],
) -> Result<Tops, Refusal>
    ensures result_value { rewritten result ≡ rewrite_answer true (rule_of controller count nodes.now) mask table.old }
    ensures table_after { table.new ≡ rewrite_table true (rule_of controller count nodes.now) mask table.old }
{
    let rule = Rule {
        controller,
        count,
        nodes,
    };
    rewriting::rewrite_short(rule, mask, table)
}

// "judge the whole recording": the verdicts at the tops, and "a weak and a strong row for each node"
pub fn judge_recording(
    count: usize,
    nodes: &[u32],
    weak_top: usize,
    strong_top: usize,
    controllers: usize,
    states_count: usize,
    masks: &[u32],
    states: &[u64],
    c: usize,
    rows: &mut [u64],
) -> Result<Verdicts, Refusal>
    ensures result_value { judged result ≡ judge_recording_answer (table_of count nodes.now weak_top strong_top) (recording_of controllers states_count masks.now states.now) c rows.old }
    ensures rows_after { rows.new ≡ judge_recording_rows (table_of count nodes.now weak_top strong_top) (recording_of controllers states_count masks.now states.now) c rows.old }
{
    let table = Table {
        count,
        nodes,
        weak_top,
        strong_top,
    };
    let recording = Recording {
        controllers,
        count: states_count,
        masks,
        states,
    };
    judges::whole::judge_recording(table, recording, c, rows)
}

// "A session opens on masks, a rule and its controller": the number; the heading is C, controller, node count, states held
pub fn open_session(
    controllers: usize,
    owned: &[u32],
    controller: usize,
    count: usize,
    rule: &[u32],
    heading: &mut [usize; 4],
    masks: &mut [u32],
    nodes: &mut [u32],
    states: &mut [u64],
) -> Result<(), Refusal>
    ensures value { refusal_in result ≡ open_number controllers owned.now (rule_of controller count rule.now) (lent_space heading.old masks.old nodes.old states.old) }
    ensures heading_after { heading.new ≡ (leaves (Open controllers owned.now (rule_of controller count rule.now)) (lent_space heading.old masks.old nodes.old states.old)).heading }
    ensures masks_after { masks.new ≡ (leaves (Open controllers owned.now (rule_of controller count rule.now)) (lent_space heading.old masks.old nodes.old states.old)).masks }
    ensures nodes_after { nodes.new ≡ (leaves (Open controllers owned.now (rule_of controller count rule.now)) (lent_space heading.old masks.old nodes.old states.old)).nodes }
    ensures states_after { states.new ≡ (leaves (Open controllers owned.now (rule_of controller count rule.now)) (lent_space heading.old masks.old nodes.old states.old)).states }
{
    let given = Rule {
        controller,
        count,
        nodes: rule,
    };
    sessions::opening::open_session(controllers, owned, given, heading, masks, nodes, states)
}

// "Take states as they arrive": the number
pub fn arrive(
    state: u64,
    heading: &mut [usize; 4],
    masks: &[u32],
    states: &mut [u64],
) -> Result<(), Refusal>
    ensures value { refusal_in result ≡ arrive_number state (lent_space heading.old masks.now [] states.old) }
    ensures heading_after { heading.new ≡ (leaves (Arrive state) (lent_space heading.old masks.now [] states.old)).heading }
    ensures states_after { states.new ≡ (leaves (Arrive state) (lent_space heading.old masks.now [] states.old)).states }
{
    sessions::arrival::arrive(state, heading, masks, states)
}

// "let the last one be withdrawn": the number
pub fn withdraw(heading: &mut [usize; 4], states: &mut [u64]) -> Result<(), Refusal>
    ensures value { refusal_in result ≡ withdraw_number (lent_space heading.old [] [] states.old) }
    ensures heading_after { heading.new ≡ (leaves Withdraw (lent_space heading.old [] [] states.old)).heading }
    ensures states_after { states.new ≡ (leaves Withdraw (lent_space heading.old [] [] states.old)).states }
{
    sessions::withdrawal::withdraw(heading, states)
}

// "An open session takes another rule for a controller below C": the number
pub fn replace_rule(
    controller: usize,
    count: usize,
    rule: &[u32],
    heading: &mut [usize; 4],
    nodes: &mut [u32],
) -> Result<(), Refusal>
    ensures value { refusal_in result ≡ replace_number (rule_of controller count rule.now) (lent_space heading.old [] nodes.old []) }
    ensures heading_after { heading.new ≡ (leaves (Replace (rule_of controller count rule.now)) (lent_space heading.old [] nodes.old [])).heading }
    ensures nodes_after { nodes.new ≡ (leaves (Replace (rule_of controller count rule.now)) (lent_space heading.old [] nodes.old [])).nodes }
{
    let given = Rule {
        controller,
        count,
        nodes: rule,
    };
    sessions::replacement::replace_rule(given, heading, nodes)
}

// "both verdicts" of a session; "An empty session has no verdict, and its answer says so"
pub fn session_verdicts(
    heading: &[usize; 4],
    masks: &[u32],
    nodes: &[u32],
    states: &[u64],
) -> Result<Option<Verdicts>, Refusal>
    ensures result_value { session_judged result ≡ verdicts_answer (lent_space heading.now masks.now nodes.now states.now) }
    ensures result_value_2 { says_none result ≡ eqb (get_or heading.now 3 0) 0 }
{
    sessions::query::session_verdicts(heading, masks, nodes, states)
}

// "One line per atom": "Rearrange a recording without gauges"
pub fn to_archive(text: &[u8], archive: &mut [u8]) -> Result<usize, Refusal>
    ensures result_value { text_written result ≡ to_archive_answer text.now archive.old }
    ensures archive_after { archive.new ≡ to_archive_text text.now archive.old }
{
    archives::to_archive(text, archive)
}

// "the inverse"
pub fn from_archive(archive: &[u8], text: &mut [u8]) -> Result<usize, Refusal>
    ensures result_value { text_written result ≡ from_archive_answer archive.now text.old }
    ensures text_after { text.new ≡ from_archive_text archive.now text.old }
{
    archives::from_archive(archive, text)
}
