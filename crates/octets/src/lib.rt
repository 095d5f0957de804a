// Runs of bytes and little-endian numbers on lent slices. Every function is total: a byte past the
// end reads as 0, and nothing is written where it does not fit.
#![tactic(auto)]

ghost use Rattle.std.specs.Prelude.{◌≡◌, ◌<◌, min, replicate};
ghost use Rattle.octets.specs.Bytes.{bytes, number, run, fits, number_at, put, copied, moved_down, same_run};
ghost use Rattle.octets.specs.Places.{part_place};

// The smaller of two numbers. Code calls the library's `min`; docs/PROMISES.md names this one, as it does `wide`, `byte_at` and `word_at`.
pub fn min(a: usize, b: usize) -> usize
    ensures { result ≡ min a b }
{
    a.min(b)
}

// The byte at an offset.
pub fn read_u8(s: &[u8], at: usize) -> u8
    ensures { result ≡ number_at 1 s.now at }
{
    if at < s.len() { s[at] } else { 0 }
}

// One name for each width, as docs/PROMISES.md has them: each is one call of the method of its own type.
pub fn read_u16(s: &[u8], at: usize) -> u16
    ensures { result ≡ number_at 2 s.now at }
{
    u16::from_le_bytes(bytes_at(s, at))
}

pub fn read_u32(s: &[u8], at: usize) -> u32
    ensures { result ≡ number_at 4 s.now at }
{
    u32::from_le_bytes(bytes_at(s, at))
}

pub fn read_u64(s: &[u8], at: usize) -> u64
    ensures { result ≡ number_at 8 s.now at }
{
    u64::from_le_bytes(bytes_at(s, at))
}

// The N bytes at an offset.
fn bytes_at<const N: usize>(s: &[u8], at: usize) -> [u8; N]
    ensures { number result ≡ number_at N s.now at }
{
    let there = part(s, at, N);
    if let Ok(bytes) = <[u8; N]>::try_from(there) {
        return bytes;
    }
    let mut bytes = [0; N];
    bytes[..there.len()].copy_from_slice(there);
    bytes
}

// A byte as a number.
pub fn wide(b: u8) -> usize
    ensures { (result ≡ b) × (result < 256) }
{
    usize::from(b)
}

// The numbers of one byte and of two bytes at an offset, as an index.
pub fn byte_at(s: &[u8], at: usize) -> usize
    ensures { (result ≡ number_at 1 s.now at) × (result < 256) }
{
    usize::from(read_u8(s, at))
}

pub fn word_at(s: &[u8], at: usize) -> usize
    ensures { (result ≡ number_at 2 s.now at) × (result < 65536) }
{
    usize::from(read_u16(s, at))
}

// Whether n bytes from an offset on lie within a slice.
fn fits(s: &[u8], at: usize, n: usize) -> bool
    ensures { result ≡ fits at n s.now }
{
    at <= s.len() && n <= s.len() - at
}

// The n bytes from an offset on, or as many as there are.
pub fn part<'a>(s: &'a [u8], at: usize, n: usize) -> &'a [u8]
    ensures result_value { result.now ≡ run at n s.now }
    ensures ref_ptr_value { result.ref_ptr ≡ part_place s.entry at }
{
    if s.len() < at {
        return &s[..0];
    }
    let rest = &s[at..];
    &rest[..n.min(rest.len())]
}

// Puts bytes at an offset, where they fit.
fn put(s: &mut [u8], at: usize, bytes: &[u8])
    ensures { s.new ≡ put at bytes.now s.old }
{
    if fits(s, at, bytes.len()) {
        s[at..at + bytes.len()].copy_from_slice(bytes);
    }
}

// As of `read_u16`.
pub fn write_u16(s: &mut [u8], at: usize, v: u16)
    ensures { s.new ≡ put at (bytes 2 v) s.old }
{
    put(s, at, &u16::to_le_bytes(v));
}

pub fn write_u32(s: &mut [u8], at: usize, v: u32)
    ensures { s.new ≡ put at (bytes 4 v) s.old }
{
    put(s, at, &u32::to_le_bytes(v));
}

pub fn write_u64(s: &mut [u8], at: usize, v: u64)
    ensures { s.new ≡ put at (bytes 8 v) s.old }
{
    put(s, at, &u64::to_le_bytes(v));
}

// The n bytes from an offset on become 0, where there are so many.
pub fn clear(s: &mut [u8], at: usize, n: usize)
    ensures { s.new ≡ put at (replicate n 0) s.old }
{
    if fits(s, at, n) {
        s[at..at + n].fill(0);
    }
}

// Puts n bytes of src, from an offset on, into dst at an offset. Offset and length stand as numbers here and below, so that any are taken.
pub fn copy(src: &[u8], from: usize, n: usize, dst: &mut [u8], at: usize)
    ensures { dst.new ≡ copied src.now from n dst.old at }
{
    if fits(src, from, n) {
        put(dst, at, &src[from..from + n]);
    }
}

// Moves n bytes of s down; the runs may overlap.
pub fn move_down(s: &mut [u8], from: usize, to: usize, n: usize)
    ensures { s.new ≡ moved_down s.old from to n }
{
    if to <= from && fits(s, from, n) {
        s.copy_within(from..from + n, to);
    }
}

// Whether n bytes of s and n bytes of t, each from an offset on, are there and equal.
pub fn same(s: &[u8], at: usize, t: &[u8], bt: usize, n: usize) -> bool
    ensures { result ≡ same_run s.now at t.now bt n }
{
    fits(s, at, n) && fits(t, bt, n) && s[at..at + n] == t[bt..bt + n]
}
