// The check of a rule's table and of the judge's: the first refusal that is met.
ghost use Rattle.std.specs.Prelude.{true, ◌≡◌, ◌≤◌, length};
ghost use Rattle.definitions.specs.Limits.{max_table_nodes, accepted};
ghost use Rattle.definitions.specs.Tables.{nodes_refusal, rule_heading_refusal, rule_refusal, table_refusal};
ghost use Rattle.rules.specs.Handed.{rule_in, table_in};
ghost use Rattle.rules.specs.Refusals.{refusal_in};

use super::limits::Limits;
use super::node::Node;
use super::node_check::{check_node, node_fits};
use super::refusal::{Refusal, unless};
use super::rule::{Rule, Table};

// Each node fits: one pass without a branch, for the tables that are accepted.
fn all_fit(rewritten: bool, count: usize, nodes: &[u32]) -> bool
    requires { (count ≤ max_table_nodes) × (count ≤ length nodes.now) }
    ensures { result ≡ true → nodes_refusal rewritten 0 count nodes.now ≡ accepted }
{
    let mut fit = true;
    for i in 0..count {
        fit = fit & node_fits(rewritten, i as u16, Node::of_word(nodes[i]));
    }
    fit
}

// The nodes that are there, in order, then a node missing.
fn check_each(rewritten: bool, count: usize, nodes: &[u32]) -> Result<(), Refusal>
    requires { count ≤ max_table_nodes }
    ensures { refusal_in result ≡ nodes_refusal rewritten 0 count nodes.now }
{
    for i in 0..count {
        if nodes.len() <= i {
            return Err(Refusal::RuleLines);
        }
        check_node(rewritten, i as u16, Node::of_word(nodes[i]))?;
    }
    Ok(())
}

fn check_nodes(rewritten: bool, count: usize, nodes: &[u32]) -> Result<(), Refusal>
    requires { count ≤ max_table_nodes }
    ensures { refusal_in result ≡ nodes_refusal rewritten 0 count nodes.now }
{
    if count <= nodes.len() {
        if all_fit(rewritten, count, nodes) {
            return Ok(());
        }
    }
    check_each(rewritten, count, nodes)
}

// A controller or a count outside its limits.
pub fn check_rule_heading(controller: usize, count: usize) -> Result<(), Refusal>
    ensures { refusal_in result ≡ rule_heading_refusal controller count }
{
    let fits = (controller < Limits::CONTROLLERS) & ((1 <= count) & (count <= Limits::RULE_NODES));
    unless(Refusal::RuleLimits, fits)
}

// The heading, then the nodes.
pub fn check_rule(rule: Rule<'_>) -> Result<(), Refusal>
    ensures { refusal_in result ≡ rule_refusal (rule_in rule.entry) }
{
    check_rule_heading(rule.controller, rule.count)?;
    check_nodes(false, rule.count, rule.nodes)
}

// The count, then the nodes, then the tops.
pub fn check_table(table: Table<'_>) -> Result<(), Refusal>
    ensures { refusal_in result ≡ table_refusal (table_in table.entry) }
{
    let count = table.count;
    let some = (1 <= count) & (count <= Limits::TABLE_NODES);
    unless(Refusal::RuleLimits, some)?;
    check_nodes(true, count, table.nodes)?;
    let tops = (table.weak_top < count) & (table.strong_top < count);
    unless(Refusal::RuleLimits, tops)
}
