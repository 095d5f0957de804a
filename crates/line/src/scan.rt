// Runs of bytes that are not zero, and runs of bytes that are alike: whole blocks at a time.
// Offsets and lengths have 32 bits where a caller names a part of a slice, for processors of that width; `pass_blocks` counts in its own.
// Assumes that the bytes named lie within the slices, as each `requires` states.
ghost use Rattle.std.specs.Prelude.{◌≡◌, true, false, ◌==◌, ◌&&◌, ◌+◌, ◌≤◌, length, drop, position, replicate};
ghost use Rattle.std.specs.List.{fold};
ghost use Rattle.octets.specs.Bytes.{run, overlay};
ghost use Rattle.line.specs.Runs.{Within, nonzero, run_length};

// How many bytes are tested together.
pub(crate) const BLOCK: u32 = 32;

// And how many where fewer are left.
const SMALL_BLOCK: usize = 8;

// How many bytes stand ahead of the first zero, or all. Blocks are passed first, then smaller ones, then bytes.
pub(crate) fn nonzero_run(s: &[u8]) -> usize
    ensures most { result ≤ length s.now }
    ensures value { result ≡ length (nonzero (length s.now) s.now) }
{
    let mut k = pass_blocks(s, 0, BLOCK as usize);
    k = pass_blocks(s, k, SMALL_BLOCK);
    match first_zero(&s[k..]) {
        Some(n) => k + n,
        None => s.len(),
    }
}

// Whether one of the next 8 bytes is zero, where so many are there: single bytes are then the shortest way. Either answer gives the same
// run. All 8 are tested, so that the compiler tests them together.
pub(crate) fn ends_soon(s: &[u8]) -> bool {
    SMALL_BLOCK <= s.len()
        && s[..SMALL_BLOCK]
            .iter()
            .fold(false, |zero, b| zero | (*b == 0))
}

// As `nonzero_run`, for runs that are often short.
pub(crate) fn run_ahead(s: &[u8]) -> usize
    ensures most { result ≤ length s.now }
    ensures value { result ≡ length (nonzero (length s.now) s.now) }
{
    if ends_soon(s) {
        short_run(s)
    } else {
        nonzero_run(s)
    }
}

// As `nonzero_run`, by single bytes.
fn short_run(s: &[u8]) -> usize
    ensures most { result ≤ length s.now }
    ensures value { result ≡ length (nonzero (length s.now) s.now) }
{
    match first_zero(s) {
        Some(n) => n,
        None => s.len(),
    }
}

// Where the first zero stands.
fn first_zero(s: &[u8]) -> Option<usize>
    ensures { result ≡ position (λ b. b == 0) s.now }
{
    s.iter().position(|b| *b == 0)
}

// How many bytes of a run are passed, where some are already.
// They are passed by blocks of a width, up to the first that has a zero or does not fit.
fn pass_blocks(s: &[u8], passed: usize, width: usize) -> usize
    requires passed_le_len { passed ≤ length s.now }
    requires le_width { 1 ≤ width }
    ensures { (result ≤ length s.now) × (run_length (length s.now) passed s.now ≡ run_length (length s.now) result s.now) }
{
    let mut k = passed;
    // A `while`: each step passes a block of the width, and a division would have to count the blocks ahead of them.
    while width <= s.len() - k {
        if s[k..k + width].contains(&0) {
            return k;
        }
        k += width;
    }
    k
}

// Copies bytes of s from an offset on to an offset of dst, and says how many.
// It copies up to the first zero, and at most so many.
pub(crate) fn copy_run(s: &[u8], from: u32, most: u32, dst: &mut [u8], at: u32) -> u32
    requires within { Within from most s.now }
    requires within_2 { Within at most dst.old }
    ensures most { result ≤ most }
    ensures value { result ≡ length (nonzero most (drop from s.now)) }
    ensures dst_after { dst.new ≡ overlay at (run from result s.now) dst.old }
{
    for k in 0..most {
        let b = s[(from + k) as usize];
        if b == 0 {
            return k;
        }
        dst[(at + k) as usize] = b;
    }
    most
}

// How many bytes b are next, ahead of n: a block of them, one or none.
pub(crate) fn next_alike(b: u8, s: &[u8], at: u32, n: u32) -> u32
    requires { (at ≤ n) × (n ≤ length s.now) }
    ensures { (at + result ≤ n) × (run at result s.now ≡ replicate result b) }
{
    if block_alike(b, s, at, n) {
        return BLOCK;
    }
    u32::from(at < n && s[at as usize] == b)
}

// Whether a block of bytes b is next, ahead of n. The first and the last are tested ahead of the others.
pub(crate) fn block_alike(b: u8, s: &[u8], at: u32, n: u32) -> bool
    requires { (at ≤ n) × (n ≤ length s.now) }
    ensures { result ≡ true → (at + BLOCK ≤ n) × (run at BLOCK s.now ≡ replicate BLOCK b) }
{
    if n - at < BLOCK {
        return false;
    }
    if s[at as usize] != b || s[(at + BLOCK - 1) as usize] != b {
        return false;
    }
    all_are(b, &s[at as usize..(at + BLOCK) as usize])
}

// Whether all bytes are b. A `fold`, not `all`: it stops at no byte, so that the compiler tests them together. With `all` a full block of
// zeros takes two thirds more instructions.
fn all_are(b: u8, s: &[u8]) -> bool
    ensures { result ≡ fold (λ same x. same && (x == b)) true s.now }
{
    s.iter().fold(true, |same, x| same & (*x == b))
}
