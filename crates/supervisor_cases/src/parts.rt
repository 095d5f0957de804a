// The parts that a case lends to the supervisor.
// Assumes nothing.
use supervisor::layout;
use text_lines::buffers::Buffer;
use text_lines::digest::digest_on;

// How many bytes of each part are lent past its published length.
const SPARE: usize = 9;

// Each part has as many bytes as the longest.
const PART_ROOM: usize = layout::SETTINGS_LENGTH + SPARE;

const PART_FILL: u8 = 0xa5;

pub(crate) type Part = Buffer<PART_ROOM>;

// The first bytes of each part are lent.
#[derive(Clone, Copy)]
pub(crate) struct Parts {
    pub reader: Part,
    pub outbox: Part,
    pub factory: Part,
    pub settings: Part,
    pub registers: Part,
}

// What is lent of a part. No method of `Buffer`: what its promise would say of the bytes behind a `&mut` is not proved.
pub(crate) fn lent(part: &mut Part) -> &mut [u8] {
    let n = part.count.min(PART_ROOM);
    &mut part.bytes[..n]
}

impl Parts {
    // Parts of known contents, lent with their spare bytes.
    pub(crate) fn fresh() -> Parts {
        Parts {
            reader: Buffer::filled(PART_FILL, line::reader::STATE_LENGTH + SPARE),
            outbox: Buffer::filled(PART_FILL, layout::OUTBOX_LENGTH + SPARE),
            factory: Buffer::filled(PART_FILL, layout::FACTORY_LENGTH + SPARE),
            settings: Buffer::filled(PART_FILL, layout::SETTINGS_LENGTH + SPARE),
            registers: Buffer::filled(PART_FILL, layout::REGISTERS_LENGTH + SPARE),
        }
    }

    // The part with a number.
    fn numbered(&mut self, number: usize) -> &mut Part {
        match number {
            0 => &mut self.reader,
            1 => &mut self.outbox,
            2 => &mut self.factory,
            3 => &mut self.settings,
            _ => &mut self.registers,
        }
    }

    // So many bytes of a part are lent from now on.
    pub(crate) fn lend(&mut self, number: usize, n: usize) {
        self.numbered(number).count = n;
    }

    // Stores bytes in a part.
    pub(crate) fn store(&mut self, number: usize, at: usize, s: &[u8]) {
        self.numbered(number).put(s, at);
    }

    // The digest of the reader and the outbox.
    pub(crate) fn digest_of_others(&self) -> u32 {
        digest_on(digest_on(0, &self.reader.bytes), &self.outbox.bytes)
    }

    // The digest of the two stores and the registers.
    pub(crate) fn digest_of_stores(&self) -> u32 {
        let stores = digest_on(digest_on(0, &self.factory.bytes), &self.settings.bytes);
        digest_on(stores, &self.registers.bytes)
    }
}
