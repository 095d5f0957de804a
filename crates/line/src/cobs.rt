// COBS: the length of a form, the form itself, the length that a form decodes to, and its decoding in place. Each iteration takes one
// group, or zeros, so that no `for` has the steps. Slice, place and end travel as s, i and n: a struct would be taken apart at each index.
// Assumes that the bytes named lie within the slices, as each `requires` states.
ghost use Rattle.std.specs.Prelude.{◌≡◌, true, cond, ◌+◌, ◌-◌, ◌≤◌, ◌<◌, min, length, take, drop, set, replicate};
ghost use Rattle.std.proofs.Math.Seq.{slice};
ghost use Rattle.octets.specs.Bytes.{run, overlay};
ghost use Rattle.line.specs.Limits.{longest_group, longest_message};
ghost use Rattle.line.specs.Runs.{Within, nonzero};
ghost use Rattle.line.specs.Cobs.{cobs, last_one_after_full, uncobs};
ghost use Rattle.line.specs.Decoding.{measured, plain};

use crate::limits::LONGEST_GROUP;
use crate::scan::{BLOCK, block_alike, copy_run, ends_soon, next_alike, run_ahead};

// Up to this length a message's groups are searched and copied in one loop, byte by byte; in a longer one, those that end soon.
const BYTE_BY_BYTE: u32 = 64;

// The length of the COBS form of the first n bytes of s.
pub(crate) fn form_length(s: &[u8], n: u32) -> u32
    requires n_in_bounds { n ≤ length s.now }
    requires n_le_longest_message { n ≤ longest_message }
    ensures { result ≡ length (cobs (take n s.now)) }
{
    let mut i: u32 = 0;
    let mut o: u32 = 0;
    loop {
        let zeros = next_alike(0, s, i, n);
        if 0 < zeros {
            i += zeros;
            o += zeros;
        } else {
            let k = group_length(s, i, n);
            i += k;
            o += k + 1;
            if i == n {
                return o;
            }
            if k < LONGEST_GROUP {
                i += 1;
            }
        }
    }
}

// The COBS form of the first n bytes of s, at the start of out, and its length.
pub(crate) fn encode(s: &[u8], n: u32, out: &mut [u8]) -> u32
    requires n_in_bounds { n ≤ length s.now }
    requires n_le_longest_message { n ≤ longest_message }
    requires s_in_bounds { length (cobs (take n s.now)) ≤ length out.old }
    ensures out_after { out.new ≡ overlay 0 (cobs (take n s.now)) out.old }
    ensures value { result ≡ length (cobs (take n s.now)) }
{
    let mut i: u32 = 0;
    let mut o: u32 = 0;
    loop {
        let zeros = put_codes(s, i, n, out, o);
        if 0 < zeros {
            i += zeros;
            o += zeros;
        } else {
            let k = copy_group(s, i, n, out, o + 1);
            out[o as usize] = (k + 1) as u8;
            i += k;
            o += k + 1;
            if i == n {
                return o;
            }
            if k < LONGEST_GROUP {
                i += 1;
            }
        }
    }
}

// Puts a code byte 01 at o for each zero that is next, ahead of n, and says how many.
// It does so for a block, or else up to the first other byte.
fn put_codes(s: &[u8], i: u32, n: u32, out: &mut [u8], o: u32) -> u32
    requires i_le_n { (i ≤ n) × (n ≤ length s.now) }
    requires within { Within o (n - i) out.old }
    ensures { (i + result ≤ n) × (run i result s.now ≡ replicate result 0)
        × (out.new ≡ overlay o (replicate result 1) out.old) }
{
    if block_alike(0, s, i, n) {
        out[o as usize..(o + BLOCK) as usize].fill(1);
        return BLOCK;
    }
    for k in 0..n - i {
        if s[(i + k) as usize] != 0 {
            return k;
        }
        out[(o + k) as usize] = 1;
    }
    n - i
}

// How many bytes the next group has, ahead of n.
fn group_length(s: &[u8], i: u32, n: u32) -> u32
    requires { (i ≤ n) × (n ≤ length s.now) }
    ensures inside { (i + result ≤ n) × (result ≤ longest_group) }
    ensures value { result ≡ length (nonzero (min longest_group (n - i)) (drop i s.now)) }
{
    let most = LONGEST_GROUP.min(n - i);
    run_ahead(&s[i as usize..(i + most) as usize]) as u32
}

// Copies the bytes of the next group, ahead of n, and says how many.
fn copy_group(s: &[u8], i: u32, n: u32, out: &mut [u8], at: u32) -> u32
    requires i_le_n { (i ≤ n) × (n ≤ length s.now) }
    requires within { Within at (n - i) out.old }
    ensures inside { (i + result ≤ n) × (result ≤ longest_group) }
    ensures value { result ≡ length (nonzero (min longest_group (n - i)) (drop i s.now)) }
    ensures out_after { out.new ≡ overlay at (run i result s.now) out.old }
{
    if n <= BYTE_BY_BYTE || ends_soon(&s[i as usize..n as usize]) {
        return copy_run(s, i, LONGEST_GROUP.min(n - i), out, at);
    }
    let k = group_length(s, i, n);
    out[at as usize..(at + k) as usize].copy_from_slice(&s[i as usize..(i + k) as usize]);
    k
}

// A zero at o, where one is held.
fn put_held(s: &mut [u8], o: u32, zero: bool)
    requires { o < length s.old }
    ensures { s.new ≡ cond zero (set s.old o 0) s.old }
{
    if zero {
        s[o as usize] = 0;
    }
}

// Whether the group with the code byte c at i is full and only a 01 follows it in the first n bytes of s.
fn last_one_after_full(s: &[u8], n: u32, i: u32, c: u32) -> bool
    requires n_in_bounds { n ≤ length s.now }
    requires i_lt_n { i < n }
    requires c_bound { c ≤ n - i }
    requires c_bound_2 { c < 256 }
    ensures { result ≡ last_one_after_full c (slice (i + 1) n s.now) }
{
    if c <= LONGEST_GROUP {
        return false;
    }
    if n - i - c != 1 {
        return false;
    }
    s[(i + c) as usize] == 1
}

// The length that the first n bytes of s decode to, unless they are no COBS form.
// It is one less for each full group, and for the last group's zero.
pub(crate) fn decoded_length(s: &[u8], n: u32) -> Option<usize>
    requires { n ≤ length s.now }
    ensures { result ≡ measured (uncobs (take n s.now)) }
{
    let mut full: u32 = 0;
    let mut zero = false;
    let mut i: u32 = 0;
    while i < n {
        let ones = next_alike(1, s, i, n);
        if 0 < ones {
            i += ones;
            zero = true;
        } else {
            let c = u32::from(s[i as usize]);
            if c == 0 {
                return None;
            }
            if n - i < c {
                return None;
            }
            if last_one_after_full(s, n, i, c) {
                return None;
            }
            i += c;
            zero = c <= LONGEST_GROUP;
            full += u32::from(!zero);
        }
    }
    Some((n - full - u32::from(zero)) as usize)
}

// The first n bytes of s decoded to the start of s, where they are a COBS form.
pub(crate) fn decode(s: &mut [u8], n: u32)
    requires { n ≤ length s.old }
    ensures { s.new ≡ overlay 0 (plain (take n s.old)) s.old }
{
    let mut zero = false;
    let mut o: u32 = 0;
    let mut i: u32 = 0;
    while i < n {
        let ones = put_zeros(zero, s, i, o, n);
        if 0 < ones {
            o += ones;
            i += ones;
        } else {
            let c = u32::from(s[i as usize]);
            i += 1;
            put_held(s, o, zero);
            o += u32::from(zero);
            let k = c.saturating_sub(1).min(n - i);
            s.copy_within(i as usize..(i + k) as usize, o as usize);
            o += k;
            i += k;
            zero = c <= LONGEST_GROUP; // put ahead of the next group
        }
    }
}

// Puts the zero that is held at o for each code byte 01 that is next, ahead of n, and says how many.
// It does so for a block, or else up to the first other byte. Each code byte holds another zero.
fn put_zeros(zero: bool, s: &mut [u8], i: u32, o: u32, n: u32) -> u32
    requires o_le_i { o ≤ i }
    requires i_le_n { (i ≤ n) × (n ≤ length s.old) }
    ensures { (0 < result → zero ≡ true) × (i + result ≤ n) × (run i result s.old ≡ replicate result 1)
        × (s.new ≡ overlay o (replicate result 0) s.old) }
{
    if !zero {
        return 0;
    }
    if block_alike(1, s, i, n) {
        s[o as usize..(o + BLOCK) as usize].fill(0);
        return BLOCK;
    }
    for k in 0..n - i {
        if s[(i + k) as usize] != 1 {
            return k;
        }
        s[(o + k) as usize] = 0;
    }
    n - i
}
