// The address plan: the first eight addresses of a plan by value, and whether its last counted address passes ff:ff:ff:ff:ff:ff.
// Assumes nothing: no function has a `requires`, and nothing is lent.
#![tactic(auto)]

ghost use Rattle.std.specs.Prelude.{◌≡◌, ◌≤◌};
ghost use Rattle.addresses.specs.Addresses.{address_number, highest_address, passes, addresses_promise, plan_promise, plan_report};
ghost use Rattle.addresses.specs.Addresses.{next_row};

use refusals::Refusal;

// How many bytes an address has.
pub const ADDRESS_LENGTH: usize = 6;

// How many rows are given.
pub const ROWS: usize = 8;

// ff:ff:ff:ff:ff:ff
const HIGHEST_ADDRESS: u64 = 281474976710655;

// The first eight addresses, each a row of six bytes, the most significant first.
// Rows past the count are zero, and all are where the plan passes. The plan's three numbers are those of the C interface.
pub fn addresses(base: [u8; 6], count: u16, stride: u8) -> [[u8; 6]; 8]
    ensures { result ≡ addresses_promise base count stride }
{
    let mut rows = [[0; ADDRESS_LENGTH]; ROWS];
    if last_passes(base, count, stride) {
        return rows;
    }
    let mut row = base;
    for i in 0..usize::from(count).min(ROWS) {
        rows[i] = row;
        // A local of its own: a call whose result replaces an array gets no generated proof.
        let next = next_row(row, stride);
        row = next;
    }
    rows
}

// Whether the plan passes, which is refusal 16.
pub fn plan(base: [u8; 6], count: u16, stride: u8) -> Result<(), Refusal>
    ensures { plan_report result ≡ plan_promise base count stride }
{
    if !last_passes(base, count, stride) {
        return Ok(());
    }
    Err(Refusal::PlanPasses)
}

fn last_passes(base: [u8; 6], count: u16, stride: u8) -> bool
    ensures { result ≡ passes base count stride }
{
    let Some(steps) = count.checked_sub(1) else {
        return false;
    };
    HIGHEST_ADDRESS < number_of(base) + u64::from(steps) * u64::from(stride)
}

// An address as a number.
fn number_of(address: [u8; 6]) -> u64
    ensures { (result ≡ address_number address) × (result ≤ highest_address) }
{
    let [a, b, c, d, e, f] = address;
    u64::from_be_bytes([0, 0, a, b, c, d, e, f])
}

// The row after a row, as six bytes hold it: the stride is added to the row's number.
fn next_row(row: [u8; 6], stride: u8) -> [u8; 6]
    ensures { result ≡ next_row row stride }
{
    let [_, _, a, b, c, d, e, f] = (number_of(row) + u64::from(stride)).to_be_bytes();
    [a, b, c, d, e, f]
}
