// The tests for 11 and 12: start data, and each lent part.
// The public functions assume nothing; the inner ones want bytes of the published length, as their `requires` say.
ghost use Rattle.std.specs.Prelude.{◌≡◌, ◌+◌, ◌<◌, ◌≤◌, ◌&&◌, leb, length};
ghost use Rattle.octets.specs.Bytes.{run, equal};
ghost use Rattle.supervisor.specs.Local.{result_allowed, options_allowed, pong};
ghost use Rattle.supervisor.specs.Limits.{SettingsKey, most_items, most_alerts, setting_count};
ghost use Rattle.supervisor.specs.Layout.{start_length, settings_length, registers_length, setting_value_offset, record_length};
ghost use Rattle.supervisor.specs.Layout.{factory-length, pong_offset, alert_length, alert_count, retained_version, retained_alert_offset};
ghost use Rattle.supervisor.specs.Valid.{good_item, good_items, good_start, valid_outbox, valid_factory, valid_setting, valid_value};
ghost use Rattle.supervisor.specs.Valid.{valid_values, valid_settings, valid_record, valid_text, valid_alert, valid_alerts};
ghost use Rattle.supervisor.specs.Valid.{valid_records_and_alerts, valid_registers};

use crate::{layout, loads};

// Whether an item's result is 0, 2 or 3.
fn result_is_allowed(res: usize) -> bool
    ensures { result ≡ result_allowed res }
{
    matches!(
        res,
        layout::INVENTORY_ITEM | layout::INVENTORY_ABSENT | layout::INVENTORY_FAILED
    )
}

// Whether item i has such a result and at most 64 bytes of data.
#[tactic(auto, unfolding(crate::specs::Valid::good_item))]
fn item_is_good(d: &[u8], i: u32) -> bool
    requires i_lt_most_items { i < most_items }
    requires start_length_in_bounds { start_length ≤ length d.now }
    ensures { result ≡ good_item d.now i }
{
    let at = layout::ITEMS_OFFSET + i as usize * layout::ITEM_LENGTH;
    result_is_allowed(loads::byte(d, at))
        && loads::byte(d, at + layout::ITEM_DATA_LENGTH_OFFSET) <= layout::LONGEST_ITEM_DATA
}

// Whether the first n items are good.
fn items_are_good(d: &[u8], n: u32) -> bool
    requires n_le_most_items { n ≤ most_items }
    requires start_length_in_bounds { start_length ≤ length d.now }
    ensures { result ≡ good_items d.now n }
{
    (0..n).all(|i| item_is_good(d, i))
}

#[tactic(auto, unfolding(crate::specs::Valid::good_start))]
pub(crate) fn start_is_good(d: &[u8]) -> bool
    requires { start_length ≤ length d.now }
    ensures { result ≡ good_start d.now }
{
    let bsu = loads::byte(d, layout::BSU_OFFSET);
    let count = loads::quad(d, layout::ITEM_COUNT_OFFSET);
    matches!(bsu, layout::BSU_A | layout::BSU_B)
        && loads::byte(d, layout::IMAGE_ID_LENGTH_OFFSET) <= layout::LONGEST_IMAGE_ID
        && count as usize <= layout::MOST_ITEMS
        && items_are_good(d, count)
}

#[tactic(auto, unfolding(crate::specs::Valid::valid_outbox))]
pub fn outbox_is_valid(outbox: &[u8]) -> bool
    ensures { result ≡ valid_outbox outbox.now }
{
    if outbox.len() < layout::OUTBOX_LENGTH {
        return false;
    }
    let from = loads::word(outbox, layout::OUTBOX_FROM_OFFSET);
    let to = loads::word(outbox, layout::OUTBOX_TO_OFFSET);
    from <= to
        && to <= layout::MOST_PENDING
        && loads::byte(outbox, layout::OUTBOX_TERMINATOR_OWED_OFFSET) <= 1
}

#[tactic(auto, unfolding(crate::specs::Valid::valid_factory))]
pub fn factory_is_valid(factory: &[u8]) -> bool
    ensures { result ≡ valid_factory factory.now }
{
    if factory.len() < layout::FACTORY_LENGTH {
        return false;
    }
    start_is_good(factory)
        && loads::quad(factory, layout::INVENTORY_VERSION_OFFSET) == 0
        && holds_pong(factory)
}

// The text of key 0.
fn holds_pong(factory: &[u8]) -> bool
    requires { factory-length ≤ length factory.now }
    ensures { result ≡ equal (run pong_offset 4 factory.now) pong }
{
    factory[layout::PONG_OFFSET..].starts_with(b"pong")
}

// A value is held, as long as its key allows; or none is, and its length and its edition are 0.
#[tactic(auto, unfolding(crate::specs::Valid::valid_setting))]
fn setting_is_valid(settings: &[u8], at: usize, shortest: usize, longest: usize) -> bool
    requires { at + setting_value_offset ≤ length settings.now }
    ensures { result ≡ valid_setting settings.now at shortest longest }
{
    let n = loads::word(settings, at + layout::SETTING_LENGTH_OFFSET);
    match loads::byte(settings, at) {
        0 => n == 0 && loads::quad(settings, at + layout::SETTING_EDITION_OFFSET) == 0,
        1 => shortest <= n && n <= longest,
        _ => false,
    }
}

#[tactic(auto, unfolding(crate::specs::Valid::valid_settings))]
pub fn settings_are_valid(settings: &[u8]) -> bool
    ensures { result ≡ valid_settings settings.now }
{
    layout::SETTINGS_LENGTH <= settings.len() && values_are_valid(settings)
}

// Of a settings key.
fn value_is_valid(settings: &[u8], key: u8) -> bool
    requires settings_key { SettingsKey key }
    requires settings_length_in_bounds { settings_length ≤ length settings.now }
    ensures { result ≡ valid_value settings.now key }
{
    setting_is_valid(
        settings,
        layout::setting_offset(key),
        layout::shortest_setting(key),
        layout::longest_setting(key),
    )
}

fn values_are_valid(settings: &[u8]) -> bool
    requires { settings_length ≤ length settings.now }
    ensures { result ≡ valid_values settings.now setting_count }
{
    for key in layout::FIRST_SETTING..=layout::HIGHEST_KEY {
        if !value_is_valid(settings, key) {
            return false;
        }
    }
    true
}

#[tactic(auto, unfolding(crate::specs::Valid::valid_record))]
fn record_is_valid(registers: &[u8], at: usize, most: usize) -> bool
    requires { at + record_length ≤ length registers.now }
    ensures { result ≡ valid_record registers.now at most }
{
    loads::byte(registers, at) <= 1
        && loads::word(registers, at + layout::RECORD_WHOLE_OFFSET) <= most
}

#[tactic(auto, unfolding(crate::specs::Valid::valid_text))]
fn text_is_valid(registers: &[u8], at: usize) -> bool
    requires { at + alert_length ≤ length registers.now }
    ensures { result ≡ valid_text registers.now at }
{
    loads::word(registers, at) <= layout::LONGEST_ALERT
}

#[tactic(auto, unfolding(crate::specs::Valid::valid_alert))]
fn alert_is_valid(registers: &[u8], i: usize) -> bool
    requires i_lt_most_alerts { i < most_alerts }
    requires registers_length_in_bounds { registers_length ≤ length registers.now }
    ensures { result ≡ valid_alert registers.now i }
{
    let at = layout::ALERTS_OFFSET + i * layout::ALERT_LENGTH;
    text_is_valid(registers, at) && loads::byte(registers, at + layout::ALERT_ACTION_OFFSET) != 0
}

// The first n alerts.
fn alerts_are_valid(registers: &[u8], n: usize) -> bool
    requires n_le_most_alerts { n ≤ most_alerts }
    requires registers_length_in_bounds { registers_length ≤ length registers.now }
    ensures { result ≡ valid_alerts registers.now n }
{
    for i in 0..n {
        if !alert_is_valid(registers, i) {
            return false;
        }
    }
    true
}

// Whether the highest option bit set is at most 8: at least 55 zeros lead.
pub(crate) fn options_are_allowed(options: u64) -> bool
    ensures { result ≡ options_allowed options }
{
    u64::leading_zeros(options) >= layout::OPTION_ZEROS
}

#[tactic(auto, unfolding(crate::specs::Valid::valid_registers))]
pub fn registers_are_valid(registers: &[u8]) -> bool
    ensures { result ≡ valid_registers registers.now }
{
    layout::REGISTERS_LENGTH <= registers.len()
        && loads::long(registers, layout::STATUS_OFFSET) <= 3
        && options_are_allowed(loads::long(registers, layout::OPTIONS_OFFSET))
        && loads::byte(registers, layout::REBOOT_OFFSET) <= 1
        && loads::byte(registers, layout::POWER_OFF_OFFSET) <= 1
        && records_and_alerts_are_valid(registers)
}

#[tactic(auto, unfolding(crate::specs::Valid::valid_records_and_alerts))]
fn records_and_alerts_are_valid(registers: &[u8]) -> bool
    requires { registers_length ≤ length registers.now }
    ensures { result ≡ valid_records_and_alerts registers.now }
{
    let reason = loads::word(
        registers,
        layout::BOOT_FAILURE_OFFSET + layout::RECORD_CODE_OFFSET,
    );
    reason <= 255
        && record_is_valid(
            registers,
            layout::BOOT_FAILURE_OFFSET,
            layout::LONGEST_BOOT_FAILURE,
        )
        && record_is_valid(registers, layout::PANIC_OFFSET, layout::LONGEST_PANIC)
        && alerts_and_retained_are_valid(registers)
}

// The alerts that wait, and the reply that is retained.
fn alerts_and_retained_are_valid(registers: &[u8]) -> bool
    requires { registers_length ≤ length registers.now }
    ensures { result ≡ (leb (alert_count registers.now) most_alerts
        && (valid_alerts registers.now (alert_count registers.now)
        && (leb (retained_version registers.now) 2
        && valid_text registers.now retained_alert_offset))) }
{
    let count = loads::byte(registers, layout::ALERT_COUNT_OFFSET);
    count <= layout::MOST_ALERTS
        && alerts_are_valid(registers, count)
        && loads::byte(registers, layout::RETAINED_OFFSET) <= 2
        && text_is_valid(registers, layout::RETAINED_ALERT_OFFSET)
}
