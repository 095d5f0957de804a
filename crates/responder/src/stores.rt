// The parts that a request reads and changes: all but the reader's, and the image.
// Assumes nothing.
ghost use Rattle.std.specs.Prelude.{◌≡◌};
ghost use Rattle.responder.specs.Receive.{valid_parts};
ghost use Rattle.responder.specs.Stores.{parts_of};

use supervisor::valid;

#[derive(Drop)]
pub(crate) struct Stores<'a> {
    pub image: &'a [u8],
    pub factory: &'a [u8],
    pub outbox: &'a mut [u8],
    pub settings: &'a mut [u8],
    pub registers: &'a mut [u8],
}

// Whether all parts pass the tests for 12.
#[tactic(auto, unfolding(crate::specs::Receive::valid_parts, crate::specs::Receive::valid_inner))]
pub(crate) fn are_valid(reader: &[u8], stores: &Stores) -> bool
    ensures { result ≡ valid_parts (parts_of reader.now stores.now) }
{
    line::reader::is_valid(reader)
        && valid::factory_is_valid(stores.factory)
        && valid::outbox_is_valid(stores.outbox)
        && valid::settings_are_valid(stores.settings)
        && valid::registers_are_valid(stores.registers)
}
