// Saving: keys 3, 4 and 5 as an image.
// Assumes nothing in the public function; inner ones want valid settings and room, as their `requires` say.
ghost use Rattle.std.specs.Prelude.{◌≡◌, true, ◌+◌, ◌≤◌, ◌<◌, length};
ghost use Rattle.octets.specs.Bytes.{overlay};
ghost use Rattle.supervisor.specs.Limits.{SettingsKey};
ghost use Rattle.supervisor.specs.Layout.{setting_value_offset};
ghost use Rattle.supervisor.specs.Valid.{valid_settings};
ghost use Rattle.saving.specs.Calls.{body_bytes, saved_record_bytes, image_bytes, save_outcome, save_promise};

use crate::image;
use refusals::Refusal;
use supervisor::{layout, valid};

// Writes the settings that have a value as an image into `out`.
#[tactic(auto, unfolding(crate::specs::Calls::save_promise))]
pub fn save(settings: &[u8], out: &mut [u8]) -> Result<usize, Refusal>
    ensures { save_outcome result out.new ≡ save_promise settings.now out.old }
{
    if !valid::settings_are_valid(settings) {
        return Err(Refusal::BadState);
    }
    let n = image_length(settings);
    if out.len() < n {
        return Err(Refusal::NoRoom);
    }
    write_image(settings, out);
    Ok(n)
}

// How many bytes the record of a key has: none where the key has no value.
fn record_length(settings: &[u8], key: u8) -> usize
    requires settings_value { valid_settings settings.now ≡ true }
    requires settings_key { SettingsKey key }
    ensures { (result ≡ length (saved_record_bytes settings.now key)) × (result < 65547) }
{
    let from = layout::setting_offset(key);
    if octets::read_u8(settings, from) != 1 {
        return 0;
    }
    let n = octets::read_u16(settings, from + layout::SETTING_LENGTH_OFFSET);
    image::RECORD_LENGTH + usize::from(n)
}

fn image_length(settings: &[u8]) -> usize
    requires { valid_settings settings.now ≡ true }
    ensures { result ≡ length (image_bytes settings.now) }
{
    let mut n = image::MARK_LENGTH;
    for key in layout::FIRST_SETTING..=image::HIGHEST_SAVED {
        n += record_length(settings, key);
    }
    n
}

// Writes the records in key order, then the end mark.
fn write_image(settings: &[u8], out: &mut [u8])
    requires settings_value { valid_settings settings.now ≡ true }
    requires settings_in_bounds { length (image_bytes settings.now) ≤ length out.old }
    ensures { out.new ≡ overlay 0 (image_bytes settings.now) out.old }
{
    let mut at = 0;
    for key in layout::FIRST_SETTING..=image::HIGHEST_SAVED {
        at = write_record(settings, key, out, at);
    }
    octets::copy(b"KE", 0, image::MARK_LENGTH, out, at);
}

// Writes the record of a key, or nothing where it has no value, and answers the offset behind it.
fn write_record(settings: &[u8], key: u8, out: &mut [u8], at: usize) -> usize
    requires settings_value { valid_settings settings.now ≡ true }
    requires settings_key { SettingsKey key }
    requires key_in_bounds { at + length (saved_record_bytes settings.now key) ≤ length out.old }
    ensures value { result ≡ at + length (saved_record_bytes settings.now key) }
    ensures out_after { out.new ≡ overlay at (saved_record_bytes settings.now key) out.old }
{
    let from = layout::setting_offset(key);
    if octets::read_u8(settings, from) != 1 {
        return at;
    }
    let n = usize::from(octets::read_u16(settings, from + layout::SETTING_LENGTH_OFFSET));
    let body = image::VALUE_OFFSET + n;
    write_body(settings, from, n, key, out, at);
    let sum = image::checksum_of(out, at, body);
    octets::write_u16(out, at + body, sum);
    at + (image::RECORD_LENGTH + n)
}

// Writes the record of the setting at an offset, whose value has n bytes, without its checksum. The parameters travel no
// further.
fn write_body(settings: &[u8], from: usize, n: usize, key: u8, out: &mut [u8], at: usize)
    requires n_in_bounds { from + (setting_value_offset + n) ≤ length settings.now }
    requires n_bound { n < 65536 }
    requires n_in_bounds_2 { at + (9 + n) ≤ length out.old }
    ensures { out.new ≡ overlay at (body_bytes settings.now from n key) out.old }
{
    octets::copy(b"KV", 0, image::MARK_LENGTH, out, at);
    out[at + image::KEY_OFFSET] = key;
    let edition = octets::read_u32(settings, from + layout::SETTING_EDITION_OFFSET);
    octets::write_u32(out, at + image::EDITION_OFFSET, edition);
    octets::write_u16(out, at + image::LENGTH_OFFSET, n as u16);
    octets::copy(
        settings,
        from + layout::SETTING_VALUE_OFFSET,
        n,
        out,
        at + image::VALUE_OFFSET,
    );
}
