// Start: from any bytes of sufficient length to a fresh state.
// Assumes nothing: no public function here has a `requires`.
ghost use Rattle.std.specs.Prelude.{◌≡◌, ◌++◌, ◌≤◌, ◌-◌, length, replicate};
ghost use Rattle.octets.specs.Bytes.{bytes, overlay};
ghost use Rattle.supervisor.specs.Layout.{factory-length, registers_length};
ghost use Rattle.supervisor.specs.Local.{pong};
ghost use Rattle.supervisor.specs.Calls.{parts, start_outcome, start_promise};

use crate::{layout, valid};
use refusals::Refusal;

// Begins the supervisor with start data, whose layout is that of the factory store's first bytes. The C interface lends
// each part by itself.
#[tactic(auto, unfolding(crate::specs::Calls::start_promise, crate::specs::Calls::long_enough))]
pub fn start(
    data: &[u8; layout::START_LENGTH],
    reader: &mut [u8],
    outbox: &mut [u8],
    factory: &mut [u8],
    settings: &mut [u8],
    registers: &mut [u8],
) -> Result<(), Refusal>
    ensures { start_outcome result
        (parts reader.new outbox.new factory.new settings.new registers.new)
        ≡ start_promise «data».now
        (parts reader.old outbox.old factory.old settings.old registers.old) }
{
    if reader.len() < line::reader::STATE_LENGTH
        || outbox.len() < layout::OUTBOX_LENGTH
        || factory.len() < layout::FACTORY_LENGTH
        || settings.len() < layout::SETTINGS_LENGTH
        || registers.len() < layout::REGISTERS_LENGTH
    {
        return Err(Refusal::BadState);
    }
    if !valid::start_is_good(data) {
        return Err(Refusal::BadStart);
    }
    line::reader::start(reader)?;
    octets::clear(outbox, 0, layout::OUTBOX_LENGTH);
    set_factory(data, factory);
    octets::clear(settings, 0, layout::SETTINGS_LENGTH);
    set_registers(registers);
    Ok(())
}

// The start data, then key 2's version and key 0's text.
fn set_factory(data: &[u8; layout::START_LENGTH], factory: &mut [u8])
    requires { factory-length ≤ length factory.old }
    ensures { factory.new ≡ overlay 0 («data».now ++ bytes 4 0 ++ pong) factory.old }
{
    octets::copy(data, 0, layout::START_LENGTH, factory, 0);
    octets::write_u32(factory, layout::INVENTORY_VERSION_OFFSET, 0);
    octets::copy(
        b"pong",
        0,
        layout::PONG_LENGTH,
        factory,
        layout::PONG_OFFSET,
    );
}

// Status 1, and every other register 0.
fn set_registers(registers: &mut [u8])
    requires { registers_length ≤ length registers.old }
    ensures { registers.new ≡ overlay 0 (bytes 8 1 ++ replicate (registers_length - 8) 0) registers.old }
{
    octets::clear(registers, 0, layout::REGISTERS_LENGTH);
    octets::write_u64(registers, layout::STATUS_OFFSET, 1);
}
