// Receiving with counters: `receive` that also counts how each frame ended.
// Assumes nothing: no public function here has a `requires`.
ghost use Rattle.std.specs.Prelude.{◌≡◌};
ghost use Rattle.supervisor.specs.Calls.{parts};
ghost use Rattle.responder.specs.Receive.{receive_outcome, receive_promise};
ghost use Rattle.responder.specs.Counting.{count_promise};

use crate::receive::valid_step;
use crate::stores::{Stores, are_valid};
use counters::Counters;
use refusals::Refusal;

// What a receive that counts by value says, and the counters that it leaves.
#[derive(Clone, Copy)]
pub struct Tallied {
    pub answer: Result<(), Refusal>,
    pub counters: Counters,
}

// `receive` with the counters by value: the same, and every frame of the piece is counted.
pub fn receive_tallied(
    counters: Counters,
    image: &[u8],
    piece: &[u8],
    reader: &mut [u8],
    outbox: &mut [u8],
    factory: &[u8],
    settings: &mut [u8],
    registers: &mut [u8],
) -> Tallied
    ensures { (receive_outcome result.answer
        (parts reader.new outbox.new factory.now settings.new registers.new)
        ≡ receive_promise image.now
        (parts reader.old outbox.old factory.now settings.old registers.old)
        piece.now)
        × (result.counters
        ≡ count_promise counters
        (parts reader.old outbox.old factory.now settings.old registers.old)
        piece.now) }
{
    let mut tally = counters;
    let mut stores = Stores {
        image,
        factory,
        outbox,
        settings,
        registers,
    };
    if !are_valid(reader, &stores) {
        return Tallied {
            answer: Err(Refusal::BadState),
            counters: tally,
        };
    }
    // A `while`, as that of `receive`.
    let mut at = 0;
    while at < piece.len() {
        let done = valid_step(&piece[at..], reader, &mut stores);
        tally = counters::bumped(tally, done.outcome);
        at += done.used;
    }
    Tallied {
        answer: Ok(()),
        counters: tally,
    }
}
