// The digest of bytes, by which a program of cases prints what is long.
// Assumes nothing.
ghost use Rattle.std.specs.Prelude.{◌≡◌, ◌+◌, ◌*◌, ◌%◌};
ghost use Rattle.text_lines.specs.Digest.{digest_on};

const MODULUS: u32 = 65521;

// The digest with one byte more.
fn digest_more(d: u32, b: u8) -> u32
    ensures { result ≡ (d * 31 + b + 1) % 65521 }
{
    (d % MODULUS * 31 + u32::from(b) + 1) % MODULUS
}

// The digest with more bytes; it begins with 0.
pub fn digest_on(before: u32, s: &[u8]) -> u32
    ensures { result ≡ digest_on before s.now }
{
    s.iter().fold(before, |d, b| digest_more(d, *b))
}
