// The pairs in lent space, one number each: the place times 64, and the node.
ghost use Rattle.std.specs.Prelude.{◌≡◌, ◌+◌, ◌*◌, ◌<◌, ◌≤◌, length};
ghost use Rattle.definitions.specs.Limits.{max_states};
ghost use Rattle.definitions.specs.Bounded.{bit};
ghost use Rattle.rules.specs.Handed.{rule_in};
ghost use Rattle.rows.specs.Stored.{words_of_row};
ghost use Rattle.evidence.specs.Finding.{pairs_of};
ghost use Rattle.evidence.specs.Laying.{found_in, PlaceReady, PlaceLaid, PlacesReady, PlacesLaid, PairsReady, PairsLaid};

use super::found::found_rows;
use judges::local::LocalTrace;
use lent::clear;
use mark_words::WORD_MARKS;
use rows::Row;
use rules::limits::Limits;
use rules::rule::Rule;

// Whether node j is found at place k, as a number.
#[tactic(auto, using(crate::proofs::LayLaws::lay_laws))]
fn mark_of(found: &[u64], j: usize, k: usize) -> usize
    requires { (j * words_of_row + words_of_row ≤ length found.now) × (k < max_states) }
    ensures { result ≡ bit (found_in found.now j k) }
{
    let word = found[j * Row::WORDS + k / WORD_MARKS];
    ((word >> (k % WORD_MARKS)) % 2) as usize
}

// The nodes found at place k, laid from `from` on; answers where they end. Each pair is written, and only one that is found is kept: no branch depends on it.
fn lay_place(count: usize, k: usize, found: &[u64], from: usize, pairs: &mut [u32]) -> usize
    requires { PlaceReady count k found.now from pairs.old }
    ensures { PlaceLaid count k found.now from pairs.old result pairs.new }
{
    let mut end = from;
    for j in 0..count {
        pairs[end] = (k * Limits::RULE_NODES + j) as u32;
        end += mark_of(found, j, k);
    }
    end
}

#[tactic(auto, using(crate::proofs::LayLaws::lay_laws))]
fn lay_places(count: usize, n: usize, found: &[u64], pairs: &mut [u32]) -> usize
    requires { PlacesReady count n found.now pairs.old }
    ensures { PlacesLaid count n found.now pairs.old result pairs.new }
{
    let mut end = 0;
    for k in 0..n {
        end = lay_place(count, k, found, end, pairs);
    }
    end
}

// The pairs of all nodes and places, and zeros after them; answers how many there are.
pub fn lay_pairs(rule: Rule<'_>, trace: &LocalTrace, wanted: &[u64], pairs: &mut [u32]) -> usize
    requires { PairsReady (rule_in rule) trace.now wanted.now pairs.old }
    ensures { PairsLaid (pairs_of (rule_in rule.entry) trace.now wanted.now) pairs.old result pairs.new }
{
    let mut found = [0u64; Limits::RULE_NODES * Row::WORDS];
    found_rows(rule, trace, wanted, &mut found);
    let end = lay_places(rule.count, trace.count, &found, pairs);
    clear(pairs, end, Limits::PAIRS);
    end
}
