// Choice by a test, as the definitions have it: no branch that the test decides.
ghost use Rattle.std.specs.Prelude.{◌≡◌};
ghost use Rattle.definitions.specs.Bounded.{pick};

pub fn pick<T: Copy>(test: bool, yes: T, no: T) -> T
    ensures { result ≡ pick test yes no }
{
    if test {
        return yes;
    }
    no
}
