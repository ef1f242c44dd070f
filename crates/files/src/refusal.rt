ghost use Rattle.std.specs.Prelude.{◌≡◌};
ghost use Rattle.files.specs.Answer.{number_of};
ghost use Rattle.files.specs.Cause.{cause};

// Why a call refuses, by the names of specs/Answer.
#[derive(Clone, Copy, Debug, PartialEq, Eq)]
pub enum Refusal {
    TooLong = 1,
    CutOff = 2,
    UnknownCommand = 3,
    OutOfPlace = 4,
    Beyond = 5,
    WrongKind = 6,
    OwnSenior = 7,
    SmallScratch = 8,
    ShortOutput = 9,
    RulesCutOff = 10,
    RulesUnknown = 11,
    RulesOrder = 12,
    RulesOperand = 13,
    NoSuchRule = 14,
    ZeroSeed = 15,
    WrongShape = 16,
    WrongTable = 17,
    WrongLevel = 18,
    WrongWindow = 19,
    RaggedLog = 20,
    BadCuts = 21,
}

impl Refusal {
    // Its number.
    pub fn number(self) -> usize
        ensures { result ≡ number_of (cause self) }
    {
        self as usize
    }
}
