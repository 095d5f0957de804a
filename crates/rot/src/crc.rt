// The CRC32 of the root-of-trust link, a byte at a time by the constant table.
// Assumes nothing.
ghost use Rattle.std.specs.Prelude.{◌≡◌, ◌++◌};
ghost use Rattle.rot.specs.Crc.{after_bits, bits, after_bytes, complement, crc};

use crate::table::Table;

// How many values the register has below its top byte.
const BELOW_TOP: u32 = 0x1000000;

// The CRC of some bytes.
#[tactic(auto, unfolding(crate::specs::Crc::crc))]
pub fn crc(message: &[u8]) -> u32
    ensures { result ≡ crc message.now }
{
    let table = Table::new();
    complement(after_bytes(&table, 0, message))
}

// The CRC of the bytes of two parts, one after the other.
#[tactic(auto, using(crate::proofs::Register::register_laws), unfolding(crate::specs::Crc::crc))]
pub(crate) fn crc_of_parts(first: &[u8], second: &[u8]) -> u32
    ensures { result ≡ crc (first.now ++ second.now) }
{
    let table = Table::new();
    let half = after_bytes(&table, 0, first);
    complement(after_bytes(&table, half, second))
}

// Every bit of the register the other way round.
fn complement(register: u32) -> u32
    ensures { result ≡ complement register }
{
    !register
}

// The register after some bytes more.
fn after_bytes(table: &Table, start: u32, bytes: &[u8]) -> u32
    ensures { result ≡ after_bytes start «bytes».now }
{
    let mut register = start;
    for b in bytes {
        register = after_byte(table, register, *b);
    }
    register
}

// The register after one byte more: the table's entry for that byte and the register's top byte.
#[tactic(auto, using(crate::proofs::Register::register_laws))]
fn after_byte(table: &Table, register: u32, byte: u8) -> u32
    ensures { result ≡ after_bits register (bits 8 byte) }
{
    let top = (register / BELOW_TOP) as u8;
    let index = top ^ byte;
    let entry = table.entry(index);
    entry ^ (register % BELOW_TOP * 256)
}
