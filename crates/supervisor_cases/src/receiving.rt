// The supervisor's calls that are lent all five parts: start, receive and step.
// Assumes nothing: a write that fails ends the call with its error.
use crate::own::Own;
use crate::parts::{Parts, lent};
use crate::print;
use responder::receive::{receive, step};
use std::io;
use supervisor::layout;
use supervisor::start::start;
use text_lines::fields;

impl Parts {
    // One call of start.
    pub(crate) fn begin(
        &mut self,
        rt: &impl Print,
        data: &[u8; layout::START_LENGTH],
    ) -> io::Result<()> {
        let Parts {
            reader,
            outbox,
            factory,
            settings,
            registers,
        } = self;
        let started = start(
            data,
            lent(reader),
            lent(outbox),
            lent(factory),
            lent(settings),
            lent(registers),
        );
        print::done(rt, b" started", started)
    }

    // One call of receive; its answer is printed, or passed over.
    fn receive_once(
        &mut self,
        rt: &impl Print,
        image: &[u8],
        piece: &[u8],
        printed: bool,
    ) -> io::Result<()> {
        let Parts {
            reader,
            outbox,
            factory,
            settings,
            registers,
        } = self;
        let received = receive(
            image,
            piece,
            lent(reader),
            lent(outbox),
            factory.used(),
            lent(settings),
            lent(registers),
        );
        if printed {
            return print::done(rt, b" received", received);
        }
        Ok(())
    }

    // One call of step; how many bytes it used.
    fn step_once(&mut self, rt: &impl Print, image: &[u8], piece: &[u8]) -> io::Result<usize> {
        let Parts {
            reader,
            outbox,
            factory,
            settings,
            registers,
        } = self;
        let stepped = step(
            image,
            piece,
            lent(reader),
            lent(outbox),
            factory.used(),
            lent(settings),
            lent(registers),
        );
        print::stepped(rt, stepped.used, stepped.outcome)?;
        Ok(stepped.used)
    }

    // The piece: by one call, by two, byte by byte, or by calls of step.
    pub(crate) fn receive_by(&mut self, rt: &impl Print, line: &[u8], own: &Own) -> io::Result<()> {
        let image = own.image.used();
        let piece = own.piece.used();
        match fields::key(line) {
            b'b' => self.by_bytes(rt, image, piece),
            b'q' => self.by_steps(rt, image, piece),
            b'c' => self.by_two(rt, image, piece, fields::count(line, 1)),
            _ => self.receive_once(rt, image, piece, true),
        }
    }

    // The first n bytes, then the others.
    fn by_two(&mut self, rt: &impl Print, image: &[u8], piece: &[u8], n: usize) -> io::Result<()> {
        self.receive_once(rt, image, octets::part(piece, 0, n), true)?;
        self.receive_once(rt, image, octets::part(piece, n, piece.len()), true)
    }

    // A call of receive for each byte but the last, and one for what is left.
    fn by_bytes(&mut self, rt: &impl Print, image: &[u8], piece: &[u8]) -> io::Result<()> {
        let last = piece.len().saturating_sub(1);
        for i in 0..last {
            self.receive_once(rt, image, &piece[i..i + 1], false)?;
        }
        self.receive_once(rt, image, &piece[last..], true)
    }

    // Calls of step until the piece is used up, or one uses nothing.
    fn by_steps(&mut self, rt: &impl Print, image: &[u8], piece: &[u8]) -> io::Result<()> {
        // A `loop`: each turn passes as many bytes as a step uses.
        let mut at = 0;
        loop {
            let used = self.step_once(rt, image, &piece[at..])?;
            if used == 0 || piece.len() - at <= used {
                return Ok(());
            }
            at += used;
        }
    }
}
