// The state of the recording that a place of the local trace is.
ghost use Rattle.std.specs.Prelude.{◌≡◌};
ghost use Rattle.definitions.specs.Why.{state_of_place};
ghost use Rattle.projection.specs.Places.{states_only, Countable};

use recordings::state::marked;
use rules::choice::pick;

// "place i < m is state r(i)"; "place m is state r(m-1)+1, or state 0 if m = 0". The last state's mark is not asked.
pub fn state_of_place(count: usize, c: usize, states: &[u64], k: usize) -> usize
    requires { Countable count c states.now }
    ensures { result ≡ state_of_place (states_only count states.now) c k }
{
    let mut here = 0;
    let mut after = 0;
    for (s, state) in states[..count - 1].iter().enumerate() {
        let ran = marked(c, *state);
        if ran & (here == k) {
            return s;
        }
        here = pick(ran, here + 1, here);
        after = pick(ran, s + 1, after);
    }
    after
}
