// The writer of a rule text: its lines into lent space, its length as the answer.
// What is left of lent space past the text, or after a refusal, is zeros; 13 leaves it alone.
#![tactic(auto)]

ghost use Rattle.std.specs.Prelude.{◌+◌, ◌≤◌, length};
ghost use Rattle.definitions.specs.RuleText.{kind_word, node_text, nodes_text};
ghost use Rattle.printing.specs.Printing.{Printed};
ghost use Rattle.rules.specs.Handed.{rule_in};
ghost use Rattle.rules.specs.Kinds.{kind_in};
ghost use Rattle.rules.specs.Meaning.{meaning};
ghost use Rattle.rule_writer.specs.Writing.{heading_line, heading_size, WroteRule};

use kind_words::word_of;
use lines::scan;
use printing::{put, put_byte, put_field};
use rules::kind::Kind;
use rules::limits::Limits;
use rules::node::Node;
use rules::refusal::Refusal;
use rules::rule::Rule;
use rules::table_check::check_rule;

// The word of a kind.
fn put_kind(kind: Kind, at: usize, text: &mut [u8]) -> usize
    requires { at + length (kind_word (kind_in kind)) ≤ length text.old }
    ensures { Printed (kind_word (kind_in kind)) text.old at result text.new }
{
    put(word_of(kind), at, text)
}

// The line of a node, without its end.
fn put_node(n: Node, at: usize, text: &mut [u8]) -> usize
    requires { at + length (node_text (meaning n)) ≤ length text.old }
    ensures { Printed (node_text (meaning n)) text.old at result text.new }
{
    let uses = n.kind.operands();
    let after_kind = put_kind(n.kind, at, text);
    if uses == 0 {
        return after_kind;
    }
    let after_first = put_field(n.first as u64, after_kind, text);
    if uses == 1 {
        return after_first;
    }
    put_field(n.second as u64, after_first, text)
}

// The lines of the nodes.
fn put_nodes(words: &[u32], start: usize, text: &mut [u8]) -> usize
    requires { start + length (nodes_text words.now) ≤ length text.old }
    ensures { Printed (nodes_text words.now) text.old start result text.new }
{
    let mut at = start;
    for word in words {
        let end = put_node(Node::of_word(*word), at, text);
        at = put_byte(scan::NEWLINE, end, text);
    }
    at
}

// The first line.
fn put_heading(controller: u32, count: u32, text: &mut [u8]) -> usize
    requires { heading_size controller count ≤ length text.old }
    ensures { Printed (heading_line controller count) text.old 0 result text.new }
{
    let after_word = put(b"rule", 0, text);
    let after_controller = put_field(controller as u64, after_word, text);
    let after_count = put_field(count as u64, after_controller, text);
    put_byte(scan::NEWLINE, after_count, text)
}

// Writes the text of a rule into `text`.
pub fn write_rule(rule: Rule<'_>, text: &mut [u8]) -> Result<usize, Refusal>
    ensures { WroteRule (rule_in rule.entry) text.old result text.new }
{
    if text.len() < Limits::RULE_BYTES {
        return Err(Refusal::LentShort);
    }
    if let Err(refusal) = check_rule(rule) {
        lent::clear(text, 0, Limits::RULE_BYTES);
        return Err(refusal);
    }
    let after_heading = put_heading(rule.controller as u32, rule.count as u32, text);
    let end = put_nodes(&rule.nodes[..rule.count], after_heading, text);
    lent::clear(text, end, Limits::RULE_BYTES);
    Ok(end)
}
