// The operations for C: each returns its number, and its values lie in `values`, zeros on a refusal.
#![tactic(auto)]

ghost use Rattle.std.specs.Prelude.{◌≡◌, true, false, [], ◌∷◌, ◌++◌};
ghost use Rattle.definitions.specs.Tables.{rule_of, table_of};
ghost use Rattle.definitions.specs.Recordings.{recording_of};
ghost use Rattle.definitions.specs.Operations.{read_rule_answer, read_rule_nodes, write_rule_answer, write_rule_text, read_recording_answer, read_recording_masks, read_recording_states};
ghost use Rattle.definitions.specs.Operations.{read_joint_heading, read_joint_nodes, read_joint_masks, read_joint_states, read_joint_part, project_answer, project_places, judge_local_answer};
ghost use Rattle.definitions.specs.Operations.{evidence_answer, evidence_pairs, rewrite_answer, rewrite_table, judge_recording_answer, judge_recording_rows};
ghost use Rattle.definitions.specs.Operations.{to_archive_answer, to_archive_text, from_archive_answer, from_archive_text};
ghost use Rattle.definitions.specs.OneLine.{read_line_answer, read_line_nodes};
ghost use Rattle.definitions.specs.Sessions.{lent_space, open_number, arrive_number, withdraw_number, replace_number, leaves, Open, Arrive, Withdraw, Replace, verdicts_answer};
ghost use Rattle.c_answers.specs.Values.{heading, part_values, session_values, is_set};

use c_answers::{
    number, of_count, of_found, of_judgement, of_recording_read, of_rewriting, of_rule_read,
    of_session_verdicts,
};
use joint_reading::join;

// Values: controller, node count.
#[unsafe(no_mangle)]
pub extern "C" fn rgv_read_rule(text: &[u8], nodes: &mut [u32], values: &mut [usize; 2]) -> u8
    ensures values_after { result ∷ values.new ≡ heading 2 (read_rule_answer text.now nodes.old) }
    ensures nodes_after { nodes.new ≡ read_rule_nodes text.now nodes.old }
{
    let answer = ragyvosin::read_rule(text, nodes);
    of_rule_read(answer).lay(values)
}

// Values: controller, node count.
#[unsafe(no_mangle)]
pub extern "C" fn rgv_read_line(
    controller: usize,
    line: &[u8],
    nodes: &mut [u32],
    values: &mut [usize; 2],
) -> u8
    ensures values_after { result ∷ values.new ≡ heading 2 (read_line_answer controller line.now nodes.old) }
    ensures nodes_after { nodes.new ≡ read_line_nodes controller line.now nodes.old }
{
    let answer = ragyvosin::read_line(controller, line, nodes);
    of_rule_read(answer).lay(values)
}

// Value: length.
#[unsafe(no_mangle)]
pub extern "C" fn rgv_write_rule(
    controller: usize,
    count: usize,
    nodes: &[u32],
    text: &mut [u8],
    values: &mut [usize; 1],
) -> u8
    ensures values_after { result ∷ values.new ≡ heading 1 (write_rule_answer (rule_of controller count nodes.now) text.old) }
    ensures text_after { text.new ≡ write_rule_text (rule_of controller count nodes.now) text.old }
{
    let answer = ragyvosin::write_rule(controller, count, nodes, text);
    of_count(answer).lay(values)
}

// Values: C, N.
#[unsafe(no_mangle)]
pub extern "C" fn rgv_read_recording(
    text: &[u8],
    masks: &mut [u32],
    states: &mut [u64],
    values: &mut [usize; 2],
) -> u8
    ensures values_after { result ∷ values.new ≡ heading 2 (read_recording_answer text.now masks.old states.old) }
    ensures masks_after { masks.new ≡ read_recording_masks text.now masks.old states.old }
    ensures states_after { states.new ≡ read_recording_states text.now masks.old states.old }
{
    let answer = ragyvosin::read_recording(text, masks, states);
    of_recording_read(answer).lay(values)
}

// Values: controller, node count, C, N; and of the part handed back: which text it lies in, start, length.
#[unsafe(no_mangle)]
pub extern "C" fn rgv_read_joint(
    rule: &[u8],
    recording: &[u8],
    nodes: &mut [u32],
    masks: &mut [u32],
    states: &mut [u64],
    values: &mut [usize; 7],
) -> u8
    ensures values_after { result ∷ values.new ≡ read_joint_heading rule.now recording.now nodes.old masks.old states.old ++ part_values (read_joint_part rule.now recording.now nodes.old masks.old states.old) }
    ensures nodes_after { nodes.new ≡ read_joint_nodes rule.now recording.now nodes.old masks.old states.old }
    ensures masks_after { masks.new ≡ read_joint_masks rule.now recording.now nodes.old masks.old states.old }
    ensures states_after { states.new ≡ read_joint_states rule.now recording.now nodes.old masks.old states.old }
{
    let found = join(rule, recording, nodes, masks, states);
    of_found(found).lay(values)
}

// Value: length of the local trace.
#[unsafe(no_mangle)]
pub extern "C" fn rgv_project(
    controllers: usize,
    count: usize,
    masks: &[u32],
    states: &[u64],
    c: usize,
    places: &mut [u32],
    values: &mut [usize; 1],
) -> u8
    ensures values_after { result ∷ values.new ≡ heading 1 (project_answer (recording_of controllers count masks.now states.now) c places.old) }
    ensures places_after { places.new ≡ project_places (recording_of controllers count masks.now states.now) c places.old }
{
    let answer = ragyvosin::project(controllers, count, masks, states, c, places);
    of_count(answer).lay(values)
}

// Values: weak, strong verdict.
#[unsafe(no_mangle)]
pub extern "C" fn rgv_judge_local(
    controller: usize,
    count: usize,
    nodes: &[u32],
    controllers: usize,
    states_count: usize,
    masks: &[u32],
    states: &[u64],
    values: &mut [usize; 2],
) -> u8
    ensures { result ∷ values.new ≡ heading 2 (judge_local_answer (rule_of controller count nodes.now) (recording_of controllers states_count masks.now states.now)) }
{
    let answer = ragyvosin::judge_local(
        controller,
        count,
        nodes,
        controllers,
        states_count,
        masks,
        states,
    );
    of_judgement(answer).lay(values)
}

// Value: number of pairs. The weak verdict's where `weak` is not 0.
#[unsafe(no_mangle)]
pub extern "C" fn rgv_evidence(
    controller: usize,
    count: usize,
    nodes: &[u32],
    controllers: usize,
    states_count: usize,
    masks: &[u32],
    states: &[u64],
    weak: u8,
    pairs: &mut [u32],
    values: &mut [usize; 1],
) -> u8
    ensures values_after { result ∷ values.new ≡ heading 1 (evidence_answer (rule_of controller count nodes.now) (recording_of controllers states_count masks.now states.now) (is_set weak) pairs.old) }
    ensures pairs_after { pairs.new ≡ evidence_pairs (rule_of controller count nodes.now) (recording_of controllers states_count masks.now states.now) (is_set weak) pairs.old }
{
    let answer = ragyvosin::evidence(
        controller,
        count,
        nodes,
        controllers,
        states_count,
        masks,
        states,
        weak != 0,
        pairs,
    );
    of_count(answer).lay(values)
}

// Values: node count, weak top, strong top.
#[unsafe(no_mangle)]
pub extern "C" fn rgv_rewrite_plain(
    controller: usize,
    count: usize,
    nodes: &[u32],
    mask: u32,
    table: &mut [u32],
    values: &mut [usize; 3],
) -> u8
    ensures values_after { result ∷ values.new ≡ heading 3 (rewrite_answer false (rule_of controller count nodes.now) mask table.old) }
    ensures table_after { table.new ≡ rewrite_table false (rule_of controller count nodes.now) mask table.old }
{
    let answer = ragyvosin::rewrite_plain(controller, count, nodes, mask, table);
    of_rewriting(answer).lay(values)
}

// Values: node count, weak top, strong top.
#[unsafe(no_mangle)]
pub extern "C" fn rgv_rewrite_short(
    controller: usize,
    count: usize,
    nodes: &[u32],
    mask: u32,
    table: &mut [u32],
    values: &mut [usize; 3],
) -> u8
    ensures values_after { result ∷ values.new ≡ heading 3 (rewrite_answer true (rule_of controller count nodes.now) mask table.old) }
    ensures table_after { table.new ≡ rewrite_table true (rule_of controller count nodes.now) mask table.old }
{
    let answer = ragyvosin::rewrite_short(controller, count, nodes, mask, table);
    of_rewriting(answer).lay(values)
}

// Values: weak, strong verdict.
#[unsafe(no_mangle)]
pub extern "C" fn rgv_judge_recording(
    count: usize,
    nodes: &[u32],
    weak_top: usize,
    strong_top: usize,
    controllers: usize,
    states_count: usize,
    masks: &[u32],
    states: &[u64],
    c: usize,
    rows: &mut [u64],
    values: &mut [usize; 2],
) -> u8
    ensures values_after { result ∷ values.new ≡ heading 2 (judge_recording_answer (table_of count nodes.now weak_top strong_top) (recording_of controllers states_count masks.now states.now) c rows.old) }
    ensures rows_after { rows.new ≡ judge_recording_rows (table_of count nodes.now weak_top strong_top) (recording_of controllers states_count masks.now states.now) c rows.old }
{
    let answer = ragyvosin::judge_recording(
        count,
        nodes,
        weak_top,
        strong_top,
        controllers,
        states_count,
        masks,
        states,
        c,
        rows,
    );
    of_judgement(answer).lay(values)
}

// The heading: C, controller, node count, states held.
#[unsafe(no_mangle)]
pub extern "C" fn rgv_open_session(
    controllers: usize,
    owned: &[u32],
    controller: usize,
    count: usize,
    rule: &[u32],
    heading: &mut [usize; 4],
    masks: &mut [u32],
    nodes: &mut [u32],
    states: &mut [u64],
) -> u8
    ensures value { result ≡ open_number controllers owned.now (rule_of controller count rule.now) (lent_space heading.old masks.old nodes.old states.old) }
    ensures heading_after { heading.new ≡ (leaves (Open controllers owned.now (rule_of controller count rule.now)) (lent_space heading.old masks.old nodes.old states.old)).heading }
    ensures masks_after { masks.new ≡ (leaves (Open controllers owned.now (rule_of controller count rule.now)) (lent_space heading.old masks.old nodes.old states.old)).masks }
    ensures nodes_after { nodes.new ≡ (leaves (Open controllers owned.now (rule_of controller count rule.now)) (lent_space heading.old masks.old nodes.old states.old)).nodes }
    ensures states_after { states.new ≡ (leaves (Open controllers owned.now (rule_of controller count rule.now)) (lent_space heading.old masks.old nodes.old states.old)).states }
{
    number(ragyvosin::open_session(
        controllers,
        owned,
        controller,
        count,
        rule,
        heading,
        masks,
        nodes,
        states,
    ))
}

#[unsafe(no_mangle)]
pub extern "C" fn rgv_arrive(
    state: u64,
    heading: &mut [usize; 4],
    masks: &[u32],
    states: &mut [u64],
) -> u8
    ensures value { result ≡ arrive_number state (lent_space heading.old masks.now [] states.old) }
    ensures heading_after { heading.new ≡ (leaves (Arrive state) (lent_space heading.old masks.now [] states.old)).heading }
    ensures states_after { states.new ≡ (leaves (Arrive state) (lent_space heading.old masks.now [] states.old)).states }
{
    number(ragyvosin::arrive(state, heading, masks, states))
}

#[unsafe(no_mangle)]
pub extern "C" fn rgv_withdraw(heading: &mut [usize; 4], states: &mut [u64]) -> u8
    ensures value { result ≡ withdraw_number (lent_space heading.old [] [] states.old) }
    ensures heading_after { heading.new ≡ (leaves Withdraw (lent_space heading.old [] [] states.old)).heading }
    ensures states_after { states.new ≡ (leaves Withdraw (lent_space heading.old [] [] states.old)).states }
{
    number(ragyvosin::withdraw(heading, states))
}

#[unsafe(no_mangle)]
pub extern "C" fn rgv_replace_rule(
    controller: usize,
    count: usize,
    rule: &[u32],
    heading: &mut [usize; 4],
    nodes: &mut [u32],
) -> u8
    ensures value { result ≡ replace_number (rule_of controller count rule.now) (lent_space heading.old [] nodes.old []) }
    ensures heading_after { heading.new ≡ (leaves (Replace (rule_of controller count rule.now)) (lent_space heading.old [] nodes.old [])).heading }
    ensures nodes_after { nodes.new ≡ (leaves (Replace (rule_of controller count rule.now)) (lent_space heading.old [] nodes.old [])).nodes }
{
    number(ragyvosin::replace_rule(controller, count, rule, heading, nodes))
}

// Values: 1, weak verdict, strong verdict; zeros where no state is held.
#[unsafe(no_mangle)]
pub extern "C" fn rgv_session_verdicts(
    heading: &[usize; 4],
    masks: &[u32],
    nodes: &[u32],
    states: &[u64],
    values: &mut [usize; 3],
) -> u8
    ensures { result ∷ values.new ≡ session_values (verdicts_answer (lent_space heading.now masks.now nodes.now states.now)) }
{
    let answer = ragyvosin::session_verdicts(heading, masks, nodes, states);
    of_session_verdicts(answer).lay(values)
}

// Value: length.
#[unsafe(no_mangle)]
pub extern "C" fn rgv_to_archive(text: &[u8], archive: &mut [u8], values: &mut [usize; 1]) -> u8
    ensures values_after { result ∷ values.new ≡ heading 1 (to_archive_answer text.now archive.old) }
    ensures archive_after { archive.new ≡ to_archive_text text.now archive.old }
{
    let answer = ragyvosin::to_archive(text, archive);
    of_count(answer).lay(values)
}

// Value: length.
#[unsafe(no_mangle)]
pub extern "C" fn rgv_from_archive(archive: &[u8], text: &mut [u8], values: &mut [usize; 1]) -> u8
    ensures values_after { result ∷ values.new ≡ heading 1 (from_archive_answer archive.now text.old) }
    ensures text_after { text.new ≡ from_archive_text archive.now text.old }
{
    let answer = ragyvosin::from_archive(archive, text);
    of_count(answer).lay(values)
}
