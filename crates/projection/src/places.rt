// The local trace of one controller, by one pass over the states.
ghost use Rattle.std.specs.Prelude.{◌≡◌, ◌+◌, length};
ghost use Rattle.lent.specs.Space.{laid};
ghost use Rattle.projection.specs.Places.{runs_in, places_in, Projectable};

use super::pass::pass_over;

// The places, over the start of what is lent; the answer is the local length.
pub fn project_counted(
    count: usize,
    mask: u32,
    c: usize,
    states: &[u64],
    places: &mut [u32],
) -> usize
    requires { Projectable count c states.now places.old }
    ensures { (result ≡ length (runs_in count c states.now) + 1) × (places.new ≡ laid (places_in count mask c states.now) places.old) }
{
    let held = pass_over(count, mask, c, states, places);
    held.close(places);
    held.length()
}
