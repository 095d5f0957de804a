// Why a call of the root-of-trust link is refused; `refusal_number` in specs/Answers.antt gives document 02's numbers.
// Assumes nothing.
ghost use Rattle.std.specs.Prelude.{◌≡◌};
ghost use Rattle.rot.specs.Answers.{refusal_number};

#[derive(Clone, Copy, Debug, PartialEq, Eq)]
pub enum Refusal {
    NoRoom,
    NoInput,
    BadProtocol,
    ShortHeader,
    TooLong,
    CutShort,
    BadCrc,
    BadType,
}

impl Refusal {
    // The number of a refusal.
    #[tactic(auto, unfolding(crate::specs::Answers::refusal_number))]
    pub fn number(self) -> u32
        ensures { result ≡ refusal_number self }
    {
        match self {
            Refusal::NoRoom => 8,
            Refusal::NoInput => 20,
            Refusal::BadProtocol => 21,
            Refusal::ShortHeader => 22,
            Refusal::TooLong => 23,
            Refusal::CutShort => 24,
            Refusal::BadCrc => 25,
            Refusal::BadType => 26,
        }
    }
}
