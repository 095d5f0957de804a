// Why a call is refused: document 01's table ("When a call says no"), with the refusals that document 02 adds to it.
// Assumes nothing: the one function has no `requires`.
#![tactic(auto)]

ghost use Rattle.std.specs.Prelude.{◌≡◌};
ghost use Rattle.refusals.specs.Refusals.{table_number};

// A refused call leaves what it was lent as it was.
#[derive(Clone, Copy, Debug, PartialEq, Eq)]
pub enum Refusal {
    // the output is too short for a frame, an image or a value
    NoRoom,
    // the data or the text are longer than the limit
    TooLong,
    // eight alerts wait
    AlertsFull,
    // start data that are not allowed
    BadStart,
    // a lent part is too short, or its bytes are those of no state
    BadState,
    // an alert's action or an option that is not allowed
    BadValue,
    // every number of the main processor's end is used up
    NoNumber,
    // a change of the probe list that is not allowed
    BadProbe,
    // the address plan passes ff:ff:ff:ff:ff:ff
    PlanPasses,
    // a request is outstanding
    Outstanding,
}

impl Refusal {
    // The number of a refusal.
    pub fn number(self) -> u32
        ensures { result ≡ table_number self }
    {
        match self {
            Refusal::NoRoom => 8,
            Refusal::TooLong => 9,
            Refusal::AlertsFull => 10,
            Refusal::BadStart => 11,
            Refusal::BadState => 12,
            Refusal::BadValue => 13,
            Refusal::NoNumber => 14,
            Refusal::BadProbe => 15,
            Refusal::PlanPasses => 16,
            Refusal::Outstanding => 17,
        }
    }
}
