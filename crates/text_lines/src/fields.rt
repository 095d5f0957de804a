// What stands in a line: its key, its fields, and the numbers in them.
// Assumes nothing: a field that is missing is empty, and an empty field is the number 0.
ghost use Rattle.std.specs.Prelude.{◌≡◌, ◌%◌, ◌≤◌, ◌<◌, length, drop};
ghost use Rattle.text_lines.specs.Fields.{key_of, behind_key, field as field_of, digit as digit_of, with_digit, number_ahead, decimal_in};
ghost use Rattle.text_lines.specs.Fields.{hex_in, pair_at, behind_key_place, field_place};

// How many bytes the key and the space behind it have.
const KEY_LENGTH: usize = 2;

const DECIMAL: u64 = 10;

const HEX: u64 = 16;

// What a number is cut to before it takes a digit more: 2 to the 60th.
const CUT: u64 = 1152921504606846976;

// How many values each width has.
const U8_VALUES: u64 = 256;

const U16_VALUES: u64 = 65536;

const U32_VALUES: u64 = 4294967296;

// The line's first byte, and 0 where it is empty.
pub fn key(line: &[u8]) -> u8
    ensures { result ≡ key_of line.now }
{
    octets::read_u8(line, 0)
}

// What stands behind the key and a space.
pub fn behind_key<'a>(line: &'a [u8]) -> &'a [u8]
    ensures result_value { result.now ≡ behind_key line.now }
    ensures ref_ptr_value { result.ref_ptr ≡ behind_key_place line.entry }
{
    octets::part(line, KEY_LENGTH, line.len())
}

// Where the field behind the k-th space begins.
fn field_start(line: &[u8], k: usize) -> usize
    ensures { (drop result line.now ≡ field_of k line.now) × (result ≤ length line.now) }
{
    let mut left = k;
    for (i, b) in line.iter().enumerate() {
        if left == 0 {
            return i;
        }
        if *b == b' ' {
            left -= 1;
        }
    }
    line.len()
}

// The field behind the k-th space, and all that follows it.
pub fn field<'a>(line: &'a [u8], k: usize) -> &'a [u8]
    ensures result_value { result.now ≡ field_of k line.now }
    ensures ref_ptr_value { result.ref_ptr ≡ field_place k line.entry }
{
    octets::part(line, field_start(line, k), line.len())
}

// The value of a hex digit, and HEX for any other byte.
#[tactic(auto, unfolding(crate::specs::Fields::digit))]
fn digit(b: u8) -> u64
    ensures { (result ≡ digit_of b) × (result ≤ 16) }
{
    match b {
        b'0'..=b'9' => u64::from(b - b'0'),
        b'a'..=b'f' => u64::from(b - b'a') + DECIMAL,
        _ => HEX,
    }
}

// A number with one digit more.
fn with_digit(value: u64, d: u64, base: u64) -> u64
    requires { (base ≤ 16) × (d < base) }
    ensures { result ≡ with_digit base value d }
{
    value % CUT * base + d
}

// The number whose digits a text begins with.
fn number(text: &[u8], base: u64) -> u64
    requires { base ≤ 16 }
    ensures { result ≡ number_ahead base text.now }
{
    let mut value = 0;
    for b in text {
        let d = digit(*b);
        if base <= d {
            return value;
        }
        value = with_digit(value, d, base);
    }
    value
}

// The decimal number in the k-th field.
pub fn decimal(line: &[u8], k: usize) -> u64
    ensures { result ≡ decimal_in k line.now }
{
    number(field(line, k), DECIMAL)
}

// The hex number in the k-th field.
pub fn hex(line: &[u8], k: usize) -> u64
    ensures { result ≡ hex_in k line.now }
{
    number(field(line, k), HEX)
}

// The decimal number in the k-th field as a count.
pub fn count(line: &[u8], k: usize) -> usize
    ensures { result ≡ decimal_in k line.now }
{
    decimal(line, k) as usize
}

// A number in the k-th field, cut to a width.
// One line for each width: a cut generic in the width takes a trait with an impl for each.
pub fn decimal_u8(line: &[u8], k: usize) -> u8
    ensures { result ≡ decimal_in k line.now % 256 }
{
    (decimal(line, k) % U8_VALUES) as u8
}

pub fn decimal_u16(line: &[u8], k: usize) -> u16
    ensures { result ≡ decimal_in k line.now % 65536 }
{
    (decimal(line, k) % U16_VALUES) as u16
}

pub fn hex_u8(line: &[u8], k: usize) -> u8
    ensures { result ≡ hex_in k line.now % 256 }
{
    (hex(line, k) % U8_VALUES) as u8
}

pub fn hex_u32(line: &[u8], k: usize) -> u32
    ensures { result ≡ hex_in k line.now % 4294967296 }
{
    (hex(line, k) % U32_VALUES) as u32
}

// The byte of the k-th pair of hex digits.
pub fn pair(text: &[u8], k: usize) -> u8
    ensures { result ≡ pair_at text.now k }
{
    if text.len() / 2 < k {
        return 0;
    }
    let high = digit(octets::read_u8(text, 2 * k));
    let low = digit(octets::read_u8(text, 2 * k + 1));
    (high % HEX * HEX + low % HEX) as u8
}
