// Requests that change no more than the pending reply.
// Assumes valid parts, as each `requires` states.
ghost use Rattle.std.specs.Prelude.{◌≡◌, true, cond, ◌≤◌, ◌<◌, length};
ghost use Rattle.octets.specs.Bytes.{run};
ghost use Rattle.line.specs.Numbers.{status_length, reply_bsu, reply_identity, reply_mac, reply_status, reply_image_block};
ghost use Rattle.line.specs.Numbers.{reply_key_lookup, reply_inventory};
ghost use Rattle.supervisor.specs.Layout.{outbox_length, factory-length, bsu_offset, identity_offset, identity_length, mac_offset};
ghost use Rattle.supervisor.specs.Layout.{mac_length, registers_length, status_offset};
ghost use Rattle.supervisor.specs.Valid.{valid_factory, valid_settings};
ghost use Rattle.responder.specs.Receive.{item_data_length, item_bytes, block_bytes, carries_edition, value_bytes, sent_box, reply_bytes};

use crate::head::ReplyHead;
use crate::sending::{send, send_part};
use line::numbers;
use supervisor::{keys, layout};

// The result for an index out of range, which no lent byte holds, and the bytes of name and type behind it.
const BAD_INDEX: u8 = 1;

const NAME_AND_TYPE: usize = 33;

// The boot setting.
pub(crate) fn send_bsu(outbox: &mut [u8], reply: ReplyHead, factory: &[u8])
    requires outbox_length_in_bounds { outbox_length ≤ length outbox.old }
    requires factory_length_in_bounds { factory-length ≤ length factory.now }
    ensures { outbox.new
        ≡ sent_box (reply_bytes reply reply_bsu (run bsu_offset 1 factory.now)) outbox.old }
{
    let bsu = &factory[layout::BSU_OFFSET..layout::BSU_OFFSET + 1];
    send_part(outbox, reply, numbers::REPLY_BSU, bsu);
}

// Model, revision and serial.
pub(crate) fn send_identity(outbox: &mut [u8], reply: ReplyHead, factory: &[u8])
    requires outbox_length_in_bounds { outbox_length ≤ length outbox.old }
    requires factory_length_in_bounds { factory-length ≤ length factory.now }
    ensures { outbox.new
        ≡ sent_box (reply_bytes reply reply_identity (run identity_offset identity_length factory.now)) outbox.old }
{
    let at = layout::IDENTITY_OFFSET;
    let identity = &factory[at..at + layout::IDENTITY_LENGTH];
    send_part(outbox, reply, numbers::REPLY_IDENTITY, identity);
}

// The address base, count and stride.
pub(crate) fn send_mac(outbox: &mut [u8], reply: ReplyHead, factory: &[u8])
    requires outbox_length_in_bounds { outbox_length ≤ length outbox.old }
    requires factory_length_in_bounds { factory-length ≤ length factory.now }
    ensures { outbox.new
        ≡ sent_box (reply_bytes reply reply_mac (run mac_offset mac_length factory.now)) outbox.old }
{
    let mac = &factory[layout::MAC_OFFSET..layout::MAC_OFFSET + layout::MAC_LENGTH];
    send_part(outbox, reply, numbers::REPLY_MAC, mac);
}

// Status and options.
pub(crate) fn send_status(outbox: &mut [u8], reply: ReplyHead, registers: &[u8])
    requires outbox_length_in_bounds { outbox_length ≤ length outbox.old }
    requires registers_length_in_bounds { registers_length ≤ length registers.now }
    ensures { outbox.new
        ≡ sent_box (reply_bytes reply reply_status (run status_offset status_length registers.now)) outbox.old }
{
    let at = layout::STATUS_OFFSET;
    let status = &registers[at..at + numbers::STATUS_LENGTH];
    send_part(outbox, reply, numbers::REPLY_STATUS, status);
}

// A block of the image: hash[32], offset u64. As the others here it takes what it reads, and no more.
pub(crate) fn send_block(
    outbox: &mut [u8],
    reply: ReplyHead,
    factory: &[u8],
    image: &[u8],
    data: &[u8],
)
    requires outbox_length_in_bounds { outbox_length ≤ length outbox.old }
    requires factory_value { valid_factory factory.now ≡ true }
    ensures { outbox.new
        ≡ sent_box (reply_bytes reply reply_image_block (block_bytes factory.now image.now «data».now))
        outbox.old }
{
    if !octets::same(data, 0, factory, layout::HASH_OFFSET, layout::HASH_LENGTH) {
        send_part(outbox, reply, numbers::REPLY_IMAGE_BLOCK, &[]);
        return;
    }
    let offset = octets::read_u64(data, layout::HASH_LENGTH) as usize;
    let block = octets::part(image, offset, layout::LONGEST_BLOCK);
    send_part(outbox, reply, numbers::REPLY_IMAGE_BLOCK, block);
}

// A lookup: key u8, maxresponse u16.
pub(crate) fn send_value<'a>(
    outbox: &mut [u8],
    reply: ReplyHead,
    factory: &'a [u8],
    settings: &'a [u8],
    data: &[u8],
)
    requires outbox_length_in_bounds { outbox_length ≤ length outbox.old }
    requires factory_value { valid_factory factory.now ≡ true }
    requires settings_value { valid_settings settings.now ≡ true }
    ensures { outbox.new
        ≡ sent_box (reply_bytes reply reply_key_lookup
        (value_bytes reply.version factory.now settings.now «data».now))
        outbox.old }
{
    let key = octets::read_u8(data, 0);
    let most = octets::read_u16(data, 1);
    let p = keys::find(factory, settings, key);
    let result = keys::result_number(keys::found_at(key, p, most));
    let edition = keys::edition_number(keys::edition_at(settings, key, p));
    let mut head = [result, 0, 0, 0, 0];
    octets::write_u32(&mut head, 1, edition);
    let n = head_length(reply.version, result);
    let value = keys::value_at(factory, settings, key, p, most);
    send(outbox, reply, numbers::REPLY_KEY_LOOKUP, &head[..n], value);
}

// How many bytes stand ahead of a lookup's value: the result, and in the second version the edition where the result is 0.
fn head_length(version: u32, res: u8) -> usize
    ensures { (result ≡ cond (carries_edition version res) 5 1) × (result ≤ 5) }
{
    if version == numbers::SECOND_VERSION && res == 0 {
        5
    } else {
        1
    }
}

// An inventory item by its index.
pub(crate) fn send_item(outbox: &mut [u8], reply: ReplyHead, factory: &[u8], index: usize)
    requires outbox_length_in_bounds { outbox_length ≤ length outbox.old }
    requires factory_value { valid_factory factory.now ≡ true }
    ensures { outbox.new
        ≡ sent_box (reply_bytes reply reply_inventory (item_bytes factory.now index)) outbox.old }
{
    let count = octets::read_u32(factory, layout::ITEM_COUNT_OFFSET) as usize;
    if count <= index {
        let nothing = [0u8; NAME_AND_TYPE];
        send(
            outbox,
            reply,
            numbers::REPLY_INVENTORY,
            &[BAD_INDEX],
            &nothing,
        );
        return;
    }
    let at = layout::ITEMS_OFFSET + index * layout::ITEM_LENGTH;
    let from = at + layout::ITEM_DATA_OFFSET;
    let n = item_data_length(factory, at);
    send(
        outbox,
        reply,
        numbers::REPLY_INVENTORY,
        &factory[at..at + layout::ITEM_DATA_LENGTH_OFFSET],
        &factory[from..from + n],
    );
}

// How many bytes of data the reply for the item at an offset has: those of a result 0. `byte_at` has the bound that the proof cites.
fn item_data_length(factory: &[u8], at: usize) -> usize
    requires { at < 65536 }
    ensures { result ≡ item_data_length factory.now at }
{
    if octets::byte_at(factory, at) == layout::INVENTORY_ITEM {
        return octets::byte_at(factory, at + layout::ITEM_DATA_LENGTH_OFFSET);
    }
    0
}
