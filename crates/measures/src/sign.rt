// Signed integers: the leaves, so that all above speaks of the logic's integers.
ghost use Rattle.std.specs.Prelude.{◌≡◌, ◌≤◌, pos, neg_ℤ};
ghost use Rattle.std.specs.Int.Signed.{le_z};
ghost use Rattle.fields.specs.Fields.{largest};

// Whether a value is at least its threshold.
pub fn reached(value: i32, threshold: i32) -> bool
    ensures { result ≡ le_z threshold value }
{
    threshold <= value
}

// The number without a sign.
#[tactic(auto, using(crate::proofs::SignLaws::sign_laws))]
pub fn plain(n: u32) -> i32
    requires { n ≤ largest }
    ensures { result ≡ pos n }
{
    n as i32
}

// The number after a minus.
#[tactic(auto, using(crate::proofs::SignLaws::sign_laws))]
pub fn negated(n: u32) -> i32
    requires { n ≤ largest }
    ensures { result ≡ neg_ℤ (pos n) }
{
    let v = n as i32;
    -v
}
