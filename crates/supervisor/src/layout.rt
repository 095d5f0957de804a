// The lent parts: their published lengths, and which byte is where. docs/STATE.md lists every field.
// Numbers are little-endian. Assumes nothing.
ghost use Rattle.std.specs.Prelude.{◌≡◌, ◌≤◌};
ghost use Rattle.supervisor.specs.Limits.{longest_setting, shortest_setting, longest_value};
ghost use Rattle.supervisor.specs.Layout.{setting_offset, settings_length};

use line::limits;

// Limits of document 01, as document 02 has moved them.
pub const MOST_ITEMS: usize = 64;

pub const LONGEST_ITEM_DATA: usize = 64;

pub const LONGEST_IMAGE_ID: usize = 64;

pub const HIGHEST_KEY: u8 = 6;

// The settings keys run from this one to the highest.
pub const FIRST_SETTING: u8 = 3;

pub const LONGEST_KEY_3: usize = 256;

pub const LONGEST_KEY_4: usize = 4096;

// The withdrawn-key list.
pub const LONGEST_KEY_5: usize = 4096;

// The wireless passphrase, which is set and never read back.
pub const PASSPHRASE_KEY: u8 = 6;

pub const SHORTEST_KEY_6: usize = 8;

pub const LONGEST_KEY_6: usize = 63;

// The last edition of a setting.
pub const LAST_EDITION: u32 = u32::MAX;

pub const MOST_ALERTS: usize = 8;

pub const LONGEST_ALERT: usize = 256;

pub const MOST_KEPT: usize = 512;

pub const LONGEST_BLOCK: usize = 4096;

// The rest of a boot failure behind its reason, and of a panic behind its cause.
pub const LONGEST_BOOT_FAILURE: usize = limits::LONGEST_DATA - 1;

pub const LONGEST_PANIC: usize = limits::LONGEST_DATA - 2;

// The highest option bit, and how many zeros lead where no higher one is set.
pub const HIGHEST_OPTION: u32 = 8;

pub const OPTION_ZEROS: u32 = 63 - HIGHEST_OPTION;

// What a BSU is. Numbers, here and below: a lent store has them as bytes, and the test for 12 promises of each byte.
pub const BSU_A: usize = 0x41;

pub const BSU_B: usize = 0x42;

// The result of an inventory item.
pub const INVENTORY_ITEM: usize = 0;

pub const INVENTORY_ABSENT: usize = 2;

pub const INVENTORY_FAILED: usize = 3;

// The outbox: a 00 that is owed, the longest form and its terminator.
pub const MOST_PENDING: usize = limits::LONGEST_FORM + 2;

pub const OUTBOX_FROM_OFFSET: usize = 0;

pub const OUTBOX_TO_OFFSET: usize = 2;

pub const OUTBOX_TERMINATOR_OWED_OFFSET: usize = 4;

pub const OUTBOX_BYTES_OFFSET: usize = 5;

pub const OUTBOX_LENGTH: usize = OUTBOX_BYTES_OFFSET + MOST_PENDING;

// The factory store; its first START_LENGTH bytes are the start data.
pub const BSU_OFFSET: usize = 0;

pub const IDENTITY_OFFSET: usize = 1;

pub const IDENTITY_LENGTH: usize = 26;

pub const MAC_OFFSET: usize = IDENTITY_OFFSET + IDENTITY_LENGTH;

pub const MAC_LENGTH: usize = 9;

pub const HASH_OFFSET: usize = MAC_OFFSET + MAC_LENGTH;

pub const HASH_LENGTH: usize = 32;

pub const IMAGE_ID_LENGTH_OFFSET: usize = HASH_OFFSET + HASH_LENGTH;

pub const IMAGE_ID_OFFSET: usize = IMAGE_ID_LENGTH_OFFSET + 1;

pub const ITEMS_OFFSET: usize = IMAGE_ID_OFFSET + LONGEST_IMAGE_ID;

pub const ITEM_DATA_LENGTH_OFFSET: usize = 34;

pub const ITEM_DATA_OFFSET: usize = 35;

pub const ITEM_LENGTH: usize = ITEM_DATA_OFFSET + LONGEST_ITEM_DATA;

pub const ITEM_COUNT_OFFSET: usize = ITEMS_OFFSET + MOST_ITEMS * ITEM_LENGTH;

pub const START_LENGTH: usize = ITEM_COUNT_OFFSET + 4;

pub const INVENTORY_VERSION_OFFSET: usize = START_LENGTH;

pub const PONG_OFFSET: usize = INVENTORY_VERSION_OFFSET + 4;

pub const PONG_LENGTH: usize = 4;

pub const FACTORY_LENGTH: usize = PONG_OFFSET + PONG_LENGTH;

// The settings store.
pub const SETTING_EDITION_OFFSET: usize = 1;

pub const SETTING_LENGTH_OFFSET: usize = 5;

pub const SETTING_VALUE_OFFSET: usize = 7;

pub const KEY_4_OFFSET: usize = SETTING_VALUE_OFFSET + LONGEST_KEY_3;

pub const KEY_5_OFFSET: usize = KEY_4_OFFSET + SETTING_VALUE_OFFSET + LONGEST_KEY_4;

pub const KEY_6_OFFSET: usize = KEY_5_OFFSET + SETTING_VALUE_OFFSET + LONGEST_KEY_5;

pub const SETTINGS_LENGTH: usize = KEY_6_OFFSET + SETTING_VALUE_OFFSET + LONGEST_KEY_6;

// The longest value of a settings key.
#[tactic(auto, unfolding(crate::specs::Limits::longest_setting))]
pub fn longest_setting(key: u8) -> usize
    ensures { (result ≡ longest_setting key) × (result ≤ longest_value) }
{
    match key {
        0..=FIRST_SETTING => LONGEST_KEY_3,
        4 => LONGEST_KEY_4,
        5 => LONGEST_KEY_5,
        PASSPHRASE_KEY => LONGEST_KEY_6,
        _ => 0,
    }
}

// The shortest value of a settings key.
#[tactic(auto, unfolding(crate::specs::Limits::shortest_setting))]
pub fn shortest_setting(key: u8) -> usize
    ensures { result ≡ shortest_setting key }
{
    match key {
        PASSPHRASE_KEY => SHORTEST_KEY_6,
        _ => 0,
    }
}

// Where the setting of a key lies.
#[tactic(auto, unfolding(crate::specs::Layout::setting_offset))]
pub fn setting_offset(key: u8) -> usize
    ensures { (result ≡ setting_offset key) × (result ≤ settings_length) }
{
    match key {
        0..=FIRST_SETTING => 0,
        4 => KEY_4_OFFSET,
        5 => KEY_5_OFFSET,
        PASSPHRASE_KEY => KEY_6_OFFSET,
        _ => SETTINGS_LENGTH,
    }
}

// The registers.
pub const STATUS_OFFSET: usize = 0;

pub const OPTIONS_OFFSET: usize = 8;

pub const REBOOT_OFFSET: usize = 16;

pub const POWER_OFF_OFFSET: usize = 17;

pub const BOOT_FAILURE_OFFSET: usize = 18;

pub const RECORD_CODE_OFFSET: usize = 1;

pub const RECORD_WHOLE_OFFSET: usize = 3;

pub const RECORD_KEPT_OFFSET: usize = 5;

pub const RECORD_LENGTH: usize = RECORD_KEPT_OFFSET + MOST_KEPT;

pub const PANIC_OFFSET: usize = BOOT_FAILURE_OFFSET + RECORD_LENGTH;

pub const ALERT_COUNT_OFFSET: usize = PANIC_OFFSET + RECORD_LENGTH;

pub const ALERTS_OFFSET: usize = ALERT_COUNT_OFFSET + 1;

pub const ALERT_ACTION_OFFSET: usize = 2;

pub const ALERT_TEXT_OFFSET: usize = 3;

pub const ALERT_LENGTH: usize = ALERT_TEXT_OFFSET + LONGEST_ALERT;

pub const RETAINED_OFFSET: usize = ALERTS_OFFSET + MOST_ALERTS * ALERT_LENGTH;

pub const RETAINED_SEQUENCE_OFFSET: usize = RETAINED_OFFSET + 1;

pub const RETAINED_ALERT_OFFSET: usize = RETAINED_OFFSET + 9;

pub const REGISTERS_LENGTH: usize = RETAINED_ALERT_OFFSET + ALERT_LENGTH;
