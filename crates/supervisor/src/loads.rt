// Plain loads: little-endian numbers that lie within a lent slice.
// Assumes that they do, as each `requires` states.
ghost use Rattle.std.specs.Prelude.{◌≡◌, ◌+◌, ◌≤◌, ◌<◌, length};
ghost use Rattle.octets.specs.Bytes.{run, number_at};

// The N bytes at an offset.
fn fixed<const N: usize>(s: &[u8], at: usize) -> [u8; N]
    requires { at + N ≤ length s.now }
    ensures { result ≡ run at N s.now }
{
    <[u8; N]>::try_from(&s[at..at + N]).unwrap()
}

// The numbers of one byte and of two bytes at an offset, as an index.
pub(crate) fn byte(s: &[u8], at: usize) -> usize
    requires { at < length s.now }
    ensures { (result ≡ number_at 1 s.now at) × (result < 256) }
{
    usize::from(s[at])
}

pub(crate) fn word(s: &[u8], at: usize) -> usize
    requires { at + 2 ≤ length s.now }
    ensures { (result ≡ number_at 2 s.now at) × (result < 65536) }
{
    usize::from(u16::from_le_bytes(fixed(s, at)))
}

// These two stay apart: each is one call of the method of its own type.
pub(crate) fn quad(s: &[u8], at: usize) -> u32
    requires { at + 4 ≤ length s.now }
    ensures { result ≡ number_at 4 s.now at }
{
    u32::from_le_bytes(fixed(s, at))
}

pub(crate) fn long(s: &[u8], at: usize) -> u64
    requires { at + 8 ≤ length s.now }
    ensures { result ≡ number_at 8 s.now at }
{
    u64::from_le_bytes(fixed(s, at))
}
