// The reader of a rule text: its nodes into lent space, its controller and count as the answer; refused, lent space is zeros. `heading_line`, `node_line`: one
// line each.
#![tactic(auto)]

pub mod heading_line;
pub mod node_line;

ghost use Rattle.std.specs.Prelude.{◌≡◌, drop};
ghost use Rattle.definitions.specs.RuleText.{scan_nodes};
ghost use Rattle.lines.specs.Reading.{LinesScanned};
ghost use Rattle.rule_reader.specs.Reading.{Room, NodeRoom, unread, RuleScanned, ReadRule};

use heading_line::next_heading;
use lines::{CutShort, Stop, first_line};
use node_line::next_node;
use rules::limits::Limits;
use rules::refusal::Refusal;
use rules::rule::RuleHeading;

// The node lines from `start` to the end of the text, into `nodes`, up to the first refusal.
fn scan_nodes(text: &[u8], start: usize, count: usize, nodes: &mut [u32]) -> Result<usize, Stop>
    requires { NodeRoom count start text.now nodes.old }
    ensures { LinesScanned (scan_nodes count 0 (drop start text.now)) text.now nodes.old result nodes.new }
{
    let mut at = start;
    for i in 0..count {
        let t = &text[at..];
        let line = first_line(t);
        nodes[i] = next_node(i, t, line.len).map_err(|refusal| Stop { refusal, at })?;
        at += line.next;
    }
    if at < text.len() {
        let refusal = Refusal::RuleLines;
        return Err(Stop { refusal, at });
    }
    Ok(at)
}

// A first line that is refused tells no controller and no count.
fn unread(refusal: Refusal) -> CutShort<RuleHeading>
    ensures { result ≡ unread refusal }
{
    let read = RuleHeading {
        controller: 0,
        count: 0,
    };
    let stop = Stop { refusal, at: 0 };
    CutShort { read, stop }
}

// Reads a rule text into `nodes`, up to the first refusal.
pub fn scan_rule(text: &[u8], nodes: &mut [u32]) -> Result<RuleHeading, CutShort<RuleHeading>>
    requires { Room nodes.old }
    ensures { RuleScanned text.now nodes.old result nodes.new }
{
    let line = first_line(text);
    let heading = next_heading(text, line.len).map_err(unread)?;
    let ended = scan_nodes(text, line.next, heading.count, nodes);
    ended.map_err(|stop| CutShort {
        read: heading,
        stop,
    })?;
    Ok(heading)
}

// Reads a rule into `nodes`: refused, none of them is kept.
pub fn read_rule(text: &[u8], nodes: &mut [u32]) -> Result<RuleHeading, Refusal>
    ensures { ReadRule text.now nodes.old result nodes.new }
{
    if nodes.len() < Limits::RULE_NODES {
        return Err(Refusal::LentShort);
    }
    let read = scan_rule(text, nodes);
    let kept = read.map_or(0, |heading| heading.count);
    lent::clear(nodes, kept, Limits::RULE_NODES);
    read.map_err(|cut| cut.stop.refusal)
}
