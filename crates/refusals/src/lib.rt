// The refusals of every call with their numbers (document 01, Refusal numbers; document 02, T-12).
#![tactic(auto)]

ghost use Rattle.std.specs.Prelude.{◌≡◌};
ghost use Rattle.refusals.specs.Numbers.{number};

// Why a call was refused. The documents' numbers stand in its `From`.
#[derive(Clone, Copy, Debug, PartialEq, Eq)]
pub enum Refusal {
    // The frame number is at most the position.
    Seen,
    // The frame number is above the position plus 1.
    Gap,
    // The lent output is too short.
    Short,
    // Not a line, or not the octets of one.
    NotLine,
    // The payload is not of its kind's form.
    BadPayload,
    // A command with another opcode.
    OtherOpcode,
    // The state is not sound.
    Unsound,
    // Settings out of range.
    BadSettings,
    // Not an image of a sound state.
    NotImage,
    // As many editions as there may be.
    Full,
    // An edition's number is not above the last one's, or not above the position.
    NotRising,
    // An edition's prefix is too long.
    LongPrefix,
}

// The number that the documents give a refusal.
impl From<Refusal> for u8 {
    ghost from_gives = { λ r n. n ≡ number r };

    #[tactic(auto, unfolding(crate::specs::Numbers::number))]
    fn from(r: Refusal) -> u8 {
        match r {
            Refusal::Seen => 1,
            Refusal::Gap => 2,
            Refusal::Short => 3,
            Refusal::NotLine => 4,
            Refusal::BadPayload => 5,
            Refusal::OtherOpcode => 6,
            Refusal::Unsound => 7,
            Refusal::BadSettings => 9,
            Refusal::NotImage => 10,
            Refusal::Full => 13,
            Refusal::NotRising => 14,
            Refusal::LongPrefix => 15,
        }
    }
}
