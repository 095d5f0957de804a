// The replay program of document 01: standard input goes to a fresh supervisor byte by byte, and what it sends to standard output.
// Assumes nothing: a read or a write that fails ends the program with its error.
#![tactic(auto)]

ghost use Rattle.std.specs.Prelude.{◌≡◌, ℕ, List, [], ◌+◌, ◌-◌, ◌^◌, ◌≤◌, ◌<◌, true, false, IfOk, IfSome, OnOk, OnErr, length, take};
ghost use Rattle.std.specs.Io.KnownBytes.{Appends, IsAtEnd};
ghost use Rattle.octets.specs.Bytes.{overlay};
ghost use Rattle.supervisor.specs.Limits.{most_pending};
ghost use Rattle.responder.specs.Replay.{replay_byte, replay_bytes};
ghost use Rattle.replay.specs.Feed.{parts_held, feed_outcome, feed_promise, Replays};

use responder::receive::receive;
use std::io;
use std::io::{Read, Write};
use supervisor::layout;
use supervisor::outbox::take;
use supervisor::start::start;

// How many bytes of the input are read at once, at most.
const READ_ROOM: usize = 65536;

// What is kept before it is written, and behind it the longest output that can be pending.
const OUT_ROOM: usize = 1024 + layout::MOST_PENDING;

// The parts of a supervisor.
#[derive(Drop)]
struct Supervisor {
    reader: [u8; line::reader::STATE_LENGTH],
    outbox: [u8; layout::OUTBOX_LENGTH],
    factory: [u8; layout::FACTORY_LENGTH],
    settings: [u8; layout::SETTINGS_LENGTH],
    registers: [u8; layout::REGISTERS_LENGTH],
}

// How many bytes were read, and how many bytes of output are kept at the start of the room.
#[derive(Drop)]
struct Fed {
    read: usize,
    kept: usize,
}

fn main(rt: HostRuntime) -> io::Result<()> {
    let mut data = [0u8; layout::START_LENGTH];
    data[layout::BSU_OFFSET] = 0x41;
    let mut supervisor = Supervisor {
        reader: [0; line::reader::STATE_LENGTH],
        outbox: [0; layout::OUTBOX_LENGTH],
        factory: [0; layout::FACTORY_LENGTH],
        settings: [0; layout::SETTINGS_LENGTH],
        registers: [0; layout::REGISTERS_LENGTH],
    };
    supervisor.start(&data);
    let mut bytes = [0u8; READ_ROOM];
    let mut out = [0u8; OUT_ROOM];
    supervisor.replay(&mut rt.stdin(), &mut rt.stdout(), &mut bytes, &mut out)
}

impl Supervisor {
    // Starts it from start data that are good.
    fn start(&mut self, data: &[u8; layout::START_LENGTH]) {
        let _ = start(
            data,
            &mut self.reader,
            &mut self.outbox,
            &mut self.factory,
            &mut self.settings,
            &mut self.registers,
        );
    }

    // Every read of the input, up to its end: more reads than any input has.
    fn replay<R: Read, W: Write>(
        &mut self,
        input: &mut R,
        output: &mut W,
        bytes: &mut [u8; READ_ROOM],
        out: &mut [u8],
    ) -> io::Result<()>
        requires { most_pending ≤ length out.old }
        ensures { OnOk result (IfSome (R.remaining input.old) (λ xs. length xs < 2 ^ 64 - 1 →
            Appends (W.contents output.old) (W.contents output.new)
            (replay_bytes [] (parts_held self.old) xs).taken
            × (parts_held self.new ≡ (replay_bytes [] (parts_held self.old) xs).parts))) }
    {
        for _ in 0..u64::MAX {
            if !self.replay_some(input, output, bytes, out)? {
                return Ok(());
            }
        }
        Ok(())
    }

    // One read of the input, and all output that it earns; false at the end of the input.
    fn replay_some<R: Read, W: Write>(
        &mut self,
        input: &mut R,
        output: &mut W,
        bytes: &mut [u8; READ_ROOM],
        out: &mut [u8],
    ) -> io::Result<bool>
        requires { most_pending ≤ length out.old }
        ensures { IfOk result (λ more. (bs : List ℕ)
            × Replays (R.remaining input.old) (R.remaining input.new)
            (W.contents output.old) (W.contents output.new)
            (parts_held self.old) (parts_held self.new) bs
            × (more ≡ true → 0 < length bs)
            × (more ≡ false → IsAtEnd (R.remaining input.new))) }
    {
        let n = input.read(bytes)?;
        if n == 0 {
            return Ok(false);
        }
        self.feed_all(output, &bytes[..n], out)?;
        Ok(true)
    }

    // Feeds all bytes, and writes the output that they earn where room gets short and at their end.
    fn feed_all<W: Write>(&mut self, output: &mut W, bytes: &[u8], out: &mut [u8]) -> io::Result<()>
        requires { most_pending ≤ length out.old }
        ensures left { OnOk result (parts_held self.new ≡ (replay_bytes [] (parts_held self.old) bytes.now).parts) }
        ensures written { OnOk result (Appends (W.contents output.old) (W.contents output.new)
            (replay_bytes [] (parts_held self.old) bytes.now).taken) }
        ensures failed { OnErr result ((n : ℕ) × (parts_held self.new
            ≡ (replay_bytes [] (parts_held self.old) (take n bytes.now)).parts)) }
    {
        // A `while`: each step passes as many bytes as a call of `feed` reads.
        let mut at = 0;
        while at < bytes.len() {
            let fed = self.feed(&bytes[at..], out);
            output.write_all(&out[..fed.kept])?;
            at += fed.read;
        }
        Ok(())
    }

    // Feeds bytes one by one and takes all pending output after each, to the start of out.
    // It stops ahead of a byte where less room is left than can be pending.
    fn feed(&mut self, bytes: &[u8], out: &mut [u8]) -> Fed
        ensures { feed_outcome result out.new (parts_held self.new)
            ≡ feed_promise bytes.now out.old (parts_held self.old) }
    {
        let mut kept = 0;
        for (i, byte) in bytes.iter().enumerate() {
            if out.len() - kept < layout::MOST_PENDING {
                return Fed { read: i, kept };
            }
            kept += self.feed_byte(*byte, &mut out[kept..]);
        }
        Fed {
            read: bytes.len(),
            kept,
        }
    }

    // Feeds a byte and takes all pending output, to the start of a room; how many bytes it has.
    fn feed_byte(&mut self, byte: u8, room: &mut [u8]) -> usize
        requires { most_pending ≤ length room.old }
        ensures value { result ≡ length (replay_byte [] (parts_held self.old) byte).taken }
        ensures parts_after { parts_held self.new ≡ (replay_byte [] (parts_held self.old) byte).parts }
        ensures room_after { room.new ≡ overlay 0 (replay_byte [] (parts_held self.old) byte).taken room.old }
    {
        let _ = receive(
            &[],
            &[byte],
            &mut self.reader,
            &mut self.outbox,
            &self.factory,
            &mut self.settings,
            &mut self.registers,
        );
        take(&mut self.outbox, room).unwrap_or(0)
    }
}
