// The supervisor's calls that receive with a counter block lent, and clearing a block.
// Assumes nothing: no exported function has a `requires`, and no block is refused.
ghost use Rattle.std.specs.Prelude.{◌≡◌};
ghost use Rattle.supervisor.specs.Calls.{parts};
ghost use Rattle.responder.specs.Counting.{count_promise};
ghost use Rattle.counters.specs.Count.{cleared_counters};
ghost use Rattle.oatcastle.specs.Answers.{call_outcome};
ghost use Rattle.oatcastle.specs.ReceiveCalls.{receive_call, step_call, step_count};

use crate::answer_writing::number;
use crate::receiving::step_told;
use counters::Counters;

// Makes every counter of a block 0.
#[unsafe(no_mangle)]
pub extern "C" fn oatcastle_clear_counters(counters: &mut Counters) -> u32
    ensures { (result ≡ 0) × (counters.new ≡ cleared_counters) }
{
    *counters = counters::cleared();
    0
}

// `oatcastle_receive` with a counter block lent: the same, and every frame of the piece is counted.
#[tactic(auto, unfolding(responder::specs::Receive::receive_report))]
#[unsafe(no_mangle)]
pub extern "C" fn oatcastle_receive_counted(
    counters: &mut Counters,
    image: &[u8],
    piece: &[u8],
    reader: &mut [u8],
    outbox: &mut [u8],
    factory: &[u8],
    settings: &mut [u8],
    registers: &mut [u8],
) -> u32
    ensures { (call_outcome result
        (parts reader.new outbox.new factory.now settings.new registers.new)
        ≡ receive_call image.now
        (parts reader.old outbox.old factory.now settings.old registers.old)
        piece.now)
        × (counters.new
        ≡ count_promise counters.old
        (parts reader.old outbox.old factory.now settings.old registers.old)
        piece.now) }
{
    let before = *counters;
    let tallied = responder::counting::receive_tallied(
        before, image, piece, reader, outbox, factory, settings, registers,
    );
    *counters = tallied.counters;
    number(tallied.answer)
}

// `oatcastle_step` with a counter block lent: the same, and the frame that it ended is counted.
#[unsafe(no_mangle)]
pub extern "C" fn oatcastle_step_counted(
    counters: &mut Counters,
    image: &[u8],
    piece: &[u8],
    reader: &mut [u8],
    outbox: &mut [u8],
    factory: &[u8],
    settings: &mut [u8],
    registers: &mut [u8],
    answer: &mut [u64; 6],
) -> u32
    ensures { (call_outcome result (
      parts reader.new outbox.new factory.now settings.new registers.new,
      answer.new,
    ) ≡ step_call image.now
        (parts reader.old outbox.old factory.now settings.old registers.old)
        piece.now answer.old)
        × (counters.new
        ≡ step_count counters.old image.now
        (parts reader.old outbox.old factory.now settings.old registers.old)
        piece.now) }
{
    let told = step_told(
        image, piece, reader, outbox, factory, settings, registers, answer,
    );
    counters::bump(counters, told.1);
    told.0
}
