// The places at which a node is found, as a row for each node.
ghost use Rattle.definitions.specs.Bounded.{tabulate};
ghost use Rattle.rows.specs.Marks.{Made};
ghost use Rattle.rules.specs.Handed.{rule_in};
ghost use Rattle.evidence.specs.Finding.{NodeReady, places_of, Findable, FoundRows};

use judges::local::LocalTrace;
use recordings::masks::is_own;
use rows::Row;
use rows::pair::pair_of_node;
use rows::stored::store;
use rules::kind::Kind;
use rules::node::Node;
use rules::rule::Rule;

// The places at which node j decides: an atom's wanted places. "A foreign atom at the last place adds nothing".
fn found_row(rule: Rule<'_>, trace: &LocalTrace, wanted: &[u64], j: usize) -> Row
    requires { NodeReady (rule_in rule) trace.now wanted.now j }
    ensures { Made result trace.now.count (tabulate trace.now.count (places_of (rule_in rule.entry) trace.now wanted.now j)) }
{
    let node = Node::of_word(rule.nodes[j]);
    let Kind::Atom = node.kind else {
        return Row::none(trace.count);
    };
    let p = pair_of_node(wanted, j);
    let places = p.weak.or(p.strong);
    if is_own(trace.mask, node.first as usize) {
        return places;
    }
    places.with_last(false)
}

#[tactic(auto, using(crate::proofs::FindLaws::find_laws))]
pub fn found_rows(rule: Rule<'_>, trace: &LocalTrace, wanted: &[u64], found: &mut [u64])
    requires { Findable (rule_in rule) trace.now wanted.now found.old }
    ensures { FoundRows (rule_in rule.entry) trace.now wanted.now found.new }
{
    for j in 0..rule.count {
        let row = found_row(rule, trace, wanted, j);
        store(found, j * Row::WORDS, row);
    }
}
