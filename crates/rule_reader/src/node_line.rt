// The line of a node: its kind word and its operands.
ghost use Rattle.std.specs.Prelude.{◌≡◌, ◌≤◌};
ghost use Rattle.definitions.specs.Limits.{max_rule_nodes};
ghost use Rattle.definitions.specs.Nodes.{node_word};
ghost use Rattle.definitions.specs.Lines.{tab, up_to, line_length};
ghost use Rattle.definitions.specs.RuleText.{unknown_form, operands_form, node_form, node_line};
ghost use Rattle.fields.specs.Forms.{capped_pair};
ghost use Rattle.lines.specs.Told.{told, next_told};
ghost use Rattle.rules.specs.Kinds.{kind_in};
ghost use Rattle.rule_reader.specs.NextLines.{meant, capped_form, operand_fields};

use fields::{form, number};
use kind_words::{UNKNOWN, kind_of_word};
use lines::{check_end, scan};
use rules::kind::Kind;
use rules::node::Node;
use rules::node_check::check_node;
use rules::refusal::Refusal;

// The operands of a line, as many fields after its word as its kind uses; an unused one is 0.
#[tactic(auto, using(crate::proofs::FormLaws::operand_laws))]
fn operand_fields(uses: u8, s: &[u8]) -> Option<(u32, u32)>
    ensures { result ≡ capped_pair (operand_fields uses s.now) }
{
    let parts = scan::split(s, scan::TAB);
    if uses == 0 {
        return match parts {
            None => Some((0, 0)),
            Some(_) => None,
        };
    }
    let (_, fields) = parts?;
    if uses == 1 {
        let a = number::decimal(fields)?;
        return Some((a, 0));
    }
    form::decimals(fields)
}

// A line whose word is a kind word; its operands are read up to the largest number of a field.
#[tactic(auto, using(crate::proofs::FormLaws::known_laws))]
fn known_form(kind: Kind, s: &[u8]) -> Option<Node>
    ensures { meant result ≡ capped_form (operands_form (kind_in kind) s.now) }
{
    let (a, b) = operand_fields(kind.operands(), s)?;
    Some(Node::new(kind, a as u16, b as u16))
}

// A line whose word is no kind word: any fields without a carriage return do.
#[tactic(auto, using(crate::proofs::FormLaws::unknown_laws))]
fn unknown_form(word: &[u8], s: &[u8]) -> Option<Node>
    requires { word.now ≡ up_to tab s.now }
    ensures { meant result ≡ capped_form (unknown_form s.now) }
{
    if word.is_empty() || !scan::letters(word) {
        return None;
    }
    if scan::until_byte(s, scan::CARRIAGE_RETURN) < s.len() {
        return None;
    }
    Some(Node::new(Kind::Unknown(UNKNOWN), 0, 0))
}

fn node_form(s: &[u8]) -> Option<Node>
    ensures { meant result ≡ capped_form (node_form s.now) }
{
    let word = &s[..scan::until_byte(s, scan::TAB)];
    let kind = kind_of_word(word);
    if kind.is_unknown() {
        return unknown_form(word, s);
    }
    known_form(kind, s)
}

// The next line, of `len` bytes, as that of node `i` of a rule: the word of the node.
pub fn next_node(i: usize, t: &[u8], len: usize) -> Result<u32, Refusal>
    requires { (i ≤ max_rule_nodes) × (len ≡ line_length t.now) }
    ensures { told result ≡ next_told node_word (node_line i t.now) }
{
    check_end(t, len, Refusal::RuleLines, Refusal::RuleForm)?;
    let n = node_form(&t[..len]).ok_or(Refusal::RuleForm)?;
    check_node(false, i as u16, n)?;
    Ok(n.word())
}
