// The checksum of a message's body. Each sum's remainder is taken once for each block, and a block is summed by columns, which
// the processor can add side by side. Assumes nothing: no public function has a `requires`.
ghost use Rattle.std.specs.Prelude.{◌≡◌, ◌+◌, ◌≤◌, ◌<◌, length, take, drop};
ghost use Rattle.octets.specs.Bytes.{run};
ghost use Rattle.line.specs.Checksum.{sums as sums_of, checksum};
ghost use Rattle.line.specs.Columns.{columns, block_length, total, weighted, added_row, AtMost, Addable};

const COLUMNS: usize = 16;

// After 22 rows of ff the second sum of a column is 64,515; one row more, and it no longer fits.
const ROWS: usize = 16;

const BLOCK: usize = ROWS * COLUMNS;

// The two sums.
#[derive(Clone, Copy)]
struct Sums {
    first: u32,
    second: u32,
}

// The row of bytes from an offset on.
fn row(body: &[u8], at: usize) -> [u16; COLUMNS]
    requires { at + columns ≤ length body.now }
    ensures { (result ≡ run at columns body.now) × (length result ≡ columns) × AtMost 255 result }
{
    let mut row = [0u16; COLUMNS];
    for (i, b) in body[at..at + COLUMNS].iter().enumerate() {
        row[i] = u16::from(*b);
    }
    row
}

// Adds a row to the columns' sums.
fn add(sums: &mut [u16; COLUMNS], row: &[u16; COLUMNS])
    requires { Addable sums.old row.now }
    ensures { sums.new ≡ added_row row.now sums.old }
{
    for (i, x) in row.iter().enumerate() {
        sums[i] += *x;
    }
}

// The two sums of a row, without remainders.
fn row_sums(row: &[u16; COLUMNS]) -> Sums
    requires { length row.now ≡ columns }
    ensures first_value { (result.first ≡ total row.now) × (result.second ≡ weighted row.now) }
    ensures first_bound { (result.first < 1048576) × (result.second < 16777216) }
{
    let mut sum: u32 = 0;
    let mut weighted: u32 = 0;
    for x in row {
        sum += u32::from(*x);
        weighted += sum;
    }
    Sums {
        first: sum,
        second: weighted,
    }
}

// The sums behind the block from an offset on: each remainder is taken once.
fn block(body: &[u8], at: usize, sums: Sums) -> Sums
    requires block_length_in_bounds { at + block_length ≤ length body.now }
    requires first_bound { (sums.first < 255) × (sums.second < 255) }
    ensures { (result.first < 255) × (result.second < 255)
        × (sums_of result.first result.second (drop (at + block_length) body.now)
        ≡ sums_of sums.first sums.second (drop at body.now)) }
{
    let mut firsts = [0u16; COLUMNS];
    let mut seconds = [0u16; COLUMNS];
    for i in 0..ROWS {
        let bytes = row(body, at + i * COLUMNS);
        add(&mut firsts, &bytes);
        add(&mut seconds, &firsts);
    }
    let one = row_sums(&firsts);
    let two = row_sums(&seconds);
    // In the second sum a byte counts once for each byte from it to the block's end.
    // That is 16 times for each row below, and in its own row by its column.
    let added = two.first * COLUMNS as u32 + one.second - one.first * COLUMNS as u32;
    Sums {
        first: (sums.first + one.first) % 255,
        second: (sums.second + sums.first * BLOCK as u32 + added) % 255,
    }
}

// The checksum that the sums come to over the bytes from an offset on, fewer than a block: each remainder is taken once.
fn rest(body: &[u8], at: usize, sums: Sums) -> u16
    requires at_in_bounds { (at ≤ length body.now) × (length body.now < at + block_length) }
    requires first_bound { (sums.first < 255) × (sums.second < 255) }
    ensures { result ≡ sums_of sums.first sums.second (drop at body.now) }
{
    let mut first = sums.first;
    let mut second = sums.second;
    for b in &body[at..] {
        first += u32::from(*b);
        second += first;
    }
    (second % 255 * 256 + first % 255) as u16
}

// The checksum of a body.
pub fn checksum(body: &[u8]) -> u16
    ensures { result ≡ checksum body.now }
{
    let mut sums = Sums {
        first: 0,
        second: 0,
    };
    let blocks = body.len() / BLOCK;
    for i in 0..blocks {
        sums = block(body, i * BLOCK, sums);
    }
    rest(body, blocks * BLOCK, sums)
}

// The checksum of the first n bytes of s, or of all where there are fewer.
pub(crate) fn checksum_of_first(s: &[u8], n: usize) -> u16
    ensures { result ≡ checksum (take n s.now) }
{
    if n < s.len() {
        checksum(&s[..n])
    } else {
        checksum(s)
    }
}
