// A key set: the value of a key in the settings store.
// Assumes that the store has its published length, as each `requires` states.
ghost use Rattle.std.specs.Prelude.{◌≡◌, ◌+◌, ◌≤◌, ◌<◌, length, drop};
ghost use Rattle.supervisor.specs.Limits.{longest_setting};
ghost use Rattle.supervisor.specs.Layout.{outbox_length, settings_length, setting_value_offset};
ghost use Rattle.responder.specs.Kinds.{set_error_number, set_result_number};
ghost use Rattle.responder.specs.Receive.{key_stored, store_bytes, store_bytes_at, cleared_for, key_set_parts, key_set_answered};

use crate::head::ReplyHead;
use crate::sending::send_byte;
use line::numbers;
use supervisor::layout;

// Why a value is not stored.
#[derive(Clone, Copy, Debug, PartialEq, Eq)]
pub(crate) enum SetError {
    BadKey,
    ReadOnly,
    BadLength,
    LastEdition,
}

impl SetError {
    // Its number in a reply.
    fn number(self) -> u8
        ensures { result ≡ set_error_number self }
    {
        match self {
            SetError::BadKey => 1,
            SetError::ReadOnly => 2,
            SetError::BadLength => 3,
            SetError::LastEdition => 4,
        }
    }
}

// The result in a reply: 0 where the value is stored.
fn result_byte(stored: Result<(), SetError>) -> u8
    ensures { result ≡ set_result_number stored }
{
    match stored {
        Ok(()) => 0,
        Err(why) => why.number(),
    }
}

// Where a key's setting lies, how long its value may be, and how many bytes of the value before become 0 first.
#[derive(Clone, Copy)]
struct Place {
    at: usize,
    shortest: usize,
    longest: usize,
    cleared: usize,
}

// A key set: key u8, rest the value. It answers the result.
pub(crate) fn set_key(outbox: &mut [u8], settings: &mut [u8], reply: ReplyHead, data: &[u8]) -> u8
    requires outbox_length_in_bounds { outbox_length ≤ length outbox.old }
    requires settings_length_in_bounds { settings_length ≤ length settings.old }
    requires in_bounds { 1 ≤ length «data».now }
    ensures { key_set_parts result outbox.new settings.new
        ≡ key_set_answered outbox.old settings.old reply «data».now }
{
    let result = result_byte(store(settings, octets::read_u8(data, 0), data));
    send_byte(outbox, reply, numbers::REPLY_KEY_SET, result);
    result
}

// Stores the data behind the key.
fn store(settings: &mut [u8], key: u8, data: &[u8]) -> Result<(), SetError>
    requires settings_length_in_bounds { settings_length ≤ length settings.old }
    requires in_bounds { 1 ≤ length «data».now }
    ensures { key_stored (set_result_number result) settings.new ≡ store_bytes settings.old key (drop 1 «data».now) }
{
    if layout::HIGHEST_KEY < key {
        return Err(SetError::BadKey);
    }
    if key < layout::FIRST_SETTING {
        return Err(SetError::ReadOnly);
    }
    let place = Place {
        at: layout::setting_offset(key),
        shortest: layout::shortest_setting(key),
        longest: layout::longest_setting(key),
        cleared: cleared_for(key),
    };
    store_at(settings, place, data)
}

// How many bytes of the value before become 0 first: all that the passphrase may have, none of any other key's.
#[tactic(auto, unfolding(crate::specs::Receive::cleared_for, supervisor::specs::Limits::longest_setting))]
fn cleared_for(key: u8) -> usize
    ensures { (result ≡ cleared_for key) × (result ≤ longest_setting key) }
{
    if key == layout::PASSPHRASE_KEY {
        layout::LONGEST_KEY_6
    } else {
        0
    }
}

// Stores the data behind the key in the setting at a place, if their length is right.
fn store_at(settings: &mut [u8], place: Place, data: &[u8]) -> Result<(), SetError>
    requires longest_in_bounds { place.at + (setting_value_offset + place.longest) ≤ length settings.old }
    requires longest_bound { place.longest < 65536 }
    requires cleared_le_longest { place.cleared ≤ place.longest }
    requires in_bounds { 1 ≤ length «data».now }
    ensures { key_stored (set_result_number result) settings.new
        ≡ store_bytes_at settings.old place.at place.shortest place.longest place.cleared (drop 1 «data».now) }
{
    let Place {
        at,
        shortest,
        longest,
        cleared,
    } = place;
    let n = data.len() - 1;
    if n < shortest {
        return Err(SetError::BadLength);
    }
    if longest < n {
        return Err(SetError::BadLength);
    }
    let edition = octets::read_u32(settings, at + layout::SETTING_EDITION_OFFSET);
    if edition == layout::LAST_EDITION {
        return Err(SetError::LastEdition);
    }
    octets::clear(settings, at + layout::SETTING_VALUE_OFFSET, cleared);
    settings[at] = 1;
    octets::write_u32(settings, at + layout::SETTING_EDITION_OFFSET, edition + 1);
    octets::write_u16(settings, at + layout::SETTING_LENGTH_OFFSET, n as u16);
    octets::copy(data, 1, n, settings, at + layout::SETTING_VALUE_OFFSET);
    Ok(())
}
