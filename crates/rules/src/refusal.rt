// Why something is refused, and the numbers that documents 01 and 02 give for it; definitions/specs/Limits.antt is their meaning.
ghost use Rattle.std.specs.Prelude.{◌≡◌};
ghost use Rattle.definitions.specs.Limits.{accepted};
ghost use Rattle.definitions.specs.Bounded.{pick};
ghost use Rattle.rules.specs.Refusals.{number_of, refusal_in};

#[derive(Clone, Copy, PartialEq, Eq)]
pub enum Refusal {
    RuleForm = 1,
    RuleLimits = 2,
    RuleOperand = 3,
    RuleLines = 4,
    RecordingForm = 5,
    RecordingLimits = 6,
    MasksMeet = 7,
    RecordingLines = 8,
    OutputRule = 10,
    NoController = 11,
    LentShort = 13,
    InputLong = 14,
    LineForm = 15,
    BracketsDeep = 16,
    SessionFull = 17,
    SessionEmpty = 18,
    SecondGauge = 19,
    GaugeBitSet = 20,
}

impl Refusal {
    pub fn number(self) -> u8
        ensures { result ≡ number_of self }
    {
        self as u8
    }
}

// What must hold, else a refusal.
pub fn unless(refusal: Refusal, holds: bool) -> Result<(), Refusal>
    ensures { refusal_in result ≡ pick holds accepted (number_of refusal) }
{
    if holds {
        return Ok(());
    }
    Err(refusal)
}
