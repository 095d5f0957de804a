// The address plan's calls: its rows, and whether it passes.
// Assumes nothing: no exported function has a `requires`.
ghost use Rattle.std.specs.Prelude.{◌≡◌};
ghost use Rattle.oatcastle.specs.Answers.{call_outcome};
ghost use Rattle.oatcastle.specs.AddressCalls.{addresses_call, plan_call};

use crate::answer_writing::{fill, number};

// Copies the first eight addresses, one row after the other.
#[tactic(auto, using(crate::proofs::AddressLaws::flattened))]
#[unsafe(no_mangle)]
pub extern "C" fn oatcastle_addresses(
    base: &[u8; 6],
    count: u16,
    stride: u8,
    room: &mut [u8],
) -> u32
    ensures { call_outcome result room.new ≡ addresses_call base.now count stride room.old }
{
    let rows = addresses::addresses(*base, count, stride);
    number(fill(Ok(()), rows.as_flattened(), room))
}

// 16 where the plan's last counted address passes ff:ff:ff:ff:ff:ff.
#[tactic(auto, unfolding(addresses::specs::Addresses::plan_report))]
#[unsafe(no_mangle)]
pub extern "C" fn oatcastle_plan(base: &[u8; 6], count: u16, stride: u8) -> u32
    ensures { result ≡ plan_call base.now count stride }
{
    let planned = addresses::plan(*base, count, stride);
    number(planned)
}
