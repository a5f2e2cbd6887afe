// A gauge, and the gauges of a recording.
ghost use Rattle.std.specs.Prelude.{◌<◌, ◌≤◌};
ghost use Rattle.definitions.specs.Limits.{atom_count, max_gauges};

use rules::limits::Limits;

// The atom that the gauge sets, and the threshold that its values must reach.
#[derive(Clone, Copy)]
pub struct Gauge {
    pub atom: u32,
    pub threshold: i32,
    ghost below: { atom < atom_count },
}

// The first `count` of the list are the gauges of a recording, and `at` is the place of the line that follows theirs.
#[derive(Clone, Copy)]
pub struct Gauges {
    pub at: usize,
    pub count: usize,
    pub list: [Gauge; Limits::GAUGES],
    ghost few: { count ≤ max_gauges },
}

impl Gauges {
    ghost use Rattle.std.specs.Prelude.{◌≡◌, ◌+◌, [], ◌∷◌, ◌++◌};
    ghost use Rattle.definitions.specs.Gauges.{no_gauges};
    ghost use Rattle.gauges.specs.Held.{held, gauges_in};

    // No gauges, and the line at `at`.
    pub fn none(at: usize) -> Gauges
        ensures place { result.at ≡ at }
        ensures gauges { gauges_in result ≡ no_gauges }
    {
        let unused = Gauge {
            atom: 0,
            threshold: 0,
        };
        Gauges {
            at,
            count: 0,
            list: [unused; Limits::GAUGES],
        }
    }

    // The gauges.
    pub fn held(&self) -> &[Gauge]
        ensures { result.now ≡ held self.now }
    {
        &self.list[..self.count]
    }

    // One gauge more, and the place of the line after its own.
    pub fn push(&mut self, gauge: Gauge, next: usize)
        requires { self.old.count < max_gauges }
        ensures count { self.new.count ≡ self.old.count + 1 }
        ensures place { self.new.at ≡ next }
        ensures gauges { held self.new ≡ held self.old ++ (gauge ∷ []) }
    {
        self.list[self.count] = gauge;
        self.count += 1;
        self.at = next;
    }
}
