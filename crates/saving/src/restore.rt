// Restoring: an image is checked whole, then replaces the saved settings.
// Assumes nothing in the public function; inner ones want what was checked, as their `requires` say.
ghost use Rattle.std.specs.Prelude.{◌≡◌, ◌+◌, ◌≤◌, length};
ghost use Rattle.std.proofs.Math.Option.{none};
ghost use Rattle.octets.specs.Bytes.{overlay};
ghost use Rattle.supervisor.specs.Layout.{settings_length, setting_value_offset};
ghost use Rattle.saving.specs.Saving.{saved_count, saved_length_at, saved_entry_at, follows, record_step, image_step, read_image};
ghost use Rattle.saving.specs.Calls.{setting_head, cleared, put_entry, put_entries, restore_outcome, restore_promise};
ghost use Rattle.saving.specs.Calls.{image_step_of, record_step_of, fault_number, found_of, fault_in, entries_in, WholeRecord};

use crate::image;
use supervisor::{layout, valid};

// What is wrong with an image.
#[derive(Clone, Copy, Debug, PartialEq, Eq)]
pub enum Fault {
    BadMark,
    BadKey,
    TooLong,
    BadChecksum,
    CutShort,
    BytesAfter,
}

impl Fault {
    // The number of a fault.
    pub fn number(self) -> u32
        ensures { result ≡ fault_number self }
    {
        match self {
            Fault::BadMark => 30,
            Fault::BadKey => 31,
            Fault::TooLong => 32,
            Fault::BadChecksum => 33,
            Fault::CutShort => 34,
            Fault::BytesAfter => 35,
        }
    }
}

// Why nothing was restored: the settings are those of no state, or the image's first fault and its offset.
#[derive(Clone, Copy, Debug, PartialEq, Eq)]
pub enum RestoreError {
    Refused,
    Fault(Fault, usize),
}

// Replaces the saved settings by those of an image, if it has no fault.
#[tactic(auto, unfolding(crate::specs::Calls::restore_promise))]
pub fn restore(settings: &mut [u8], image: &[u8]) -> Result<(), RestoreError>
    ensures { restore_outcome result settings.new ≡ restore_promise settings.old image.now }
{
    if !valid::settings_are_valid(settings) {
        return Err(RestoreError::Refused);
    }
    // No `map_err` and `?`: the contract of its closure does not open.
    if let Err((fault, offset)) = check(image) {
        return Err(RestoreError::Fault(fault, offset));
    }
    clear(settings);
    put_records(settings, image);
    Ok(())
}

// Reads the whole image up to its end, or its first fault and that one's offset.
fn check(image: &[u8]) -> Result<(), (Fault, usize)>
    ensures { found_of result ≡ fault_in (read_image image.now) }
{
    let mut before = 0;
    let mut at = 0;
    while let Some((key, to)) = pass(image, before, at)? {
        before = key;
        at = to;
    }
    Ok(())
}

// What stands at an offset behind a record of the key `before`:
// - a record, its key and the offset behind it
// - none: the end
// - a fault and its offset
#[tactic(auto, using(crate::proofs::StepLaws::marks), unfolding(crate::specs::Saving::image_step))]
fn pass(image: &[u8], before: u8, at: usize) -> Result<Option<(u8, usize)>, (Fault, usize)>
    requires { at ≤ length image.now }
    ensures { image_step_of result ≡ image_step image.now before at }
{
    let left = image.len() - at;
    if left < image::MARK_LENGTH {
        return Err((Fault::CutShort, image.len()));
    }
    if octets::same(image, at, b"KE", 0, image::MARK_LENGTH) {
        if image::MARK_LENGTH < left {
            return Err((Fault::BytesAfter, at + image::MARK_LENGTH));
        }
        return Ok(None);
    }
    if !octets::same(image, at, b"KV", 0, image::MARK_LENGTH) {
        return Err((Fault::BadMark, at));
    }
    if left < image::EDITION_OFFSET {
        return Err((Fault::CutShort, image.len()));
    }
    if !key_follows(before, octets::read_u8(image, at + image::KEY_OFFSET)) {
        return Err((Fault::BadKey, at + image::KEY_OFFSET));
    }
    pass_record(image, at).map(Some)
}

// Whether a record of this key may stand behind one of the key `before`.
#[tactic(auto, unfolding(crate::specs::Saving::follows))]
fn key_follows(before: u8, key: u8) -> bool
    ensures { result ≡ follows before key }
{
    layout::FIRST_SETTING <= key && key <= image::HIGHEST_SAVED && before < key
}

// A record whose mark and key are good: its other fields.
#[tactic(auto, unfolding(crate::specs::Saving::record_step))]
fn pass_record(image: &[u8], at: usize) -> Result<(u8, usize), (Fault, usize)>
    requires { at + 3 ≤ length image.now }
    ensures { record_step_of result ≡ record_step image.now at }
{
    let left = image.len() - at;
    if left < image::VALUE_OFFSET {
        return Err((Fault::CutShort, image.len()));
    }
    let key = octets::read_u8(image, at + image::KEY_OFFSET);
    let n = usize::from(octets::read_u16(image, at + image::LENGTH_OFFSET));
    if layout::longest_setting(key) < n {
        return Err((Fault::TooLong, at + image::LENGTH_OFFSET));
    }
    if left < image::RECORD_LENGTH + n {
        return Err((Fault::CutShort, image.len()));
    }
    let body = image::VALUE_OFFSET + n;
    let sum = image::checksum_of(image, at, body);
    if octets::read_u16(image, at + body) != sum {
        return Err((Fault::BadChecksum, at + body));
    }
    Ok((key, at + (image::RECORD_LENGTH + n)))
}

// The saved settings without a value, with edition and length 0.
fn clear(settings: &mut [u8])
    requires { settings_length ≤ length settings.old }
    ensures { settings.new ≡ cleared saved_count settings.old }
{
    for key in layout::FIRST_SETTING..=image::HIGHEST_SAVED {
        set_head(settings, layout::setting_offset(key), 0, 0, 0);
    }
}

// What stands before a setting's value: whether there is one, the edition and the length. Each call has other numbers, so that no record
// would travel.
fn set_head(settings: &mut [u8], at: usize, held: u8, edition: u32, n: u16)
    requires { at + setting_value_offset ≤ length settings.old }
    ensures { settings.new ≡ overlay at (setting_head held edition n) settings.old }
{
    settings[at] = held;
    octets::write_u32(settings, at + layout::SETTING_EDITION_OFFSET, edition);
    octets::write_u16(settings, at + layout::SETTING_LENGTH_OFFSET, n);
}

// Puts the records of an image without a fault into their settings.
fn put_records(settings: &mut [u8], image: &[u8])
    requires settings_length_in_bounds { settings_length ≤ length settings.old }
    requires image_value { fault_in (read_image image.now) ≡ none }
    ensures { settings.new ≡ put_entries (entries_in (read_image image.now)) settings.old }
{
    // A `while`: each step passes a record of a length that varies.
    let mut at = 0;
    while !octets::same(image, at, b"KE", 0, image::MARK_LENGTH) {
        at = put_record(settings, image, at);
    }
}

// Puts the record at an offset into its key's setting, and answers the offset behind it.
fn put_record(settings: &mut [u8], image: &[u8], at: usize) -> usize
    requires settings_length_in_bounds { settings_length ≤ length settings.old }
    requires whole_record { WholeRecord image.now at }
    ensures value { result ≡ at + (11 + saved_length_at image.now at) }
    ensures settings_after { settings.new ≡ put_entry (saved_entry_at image.now at) settings.old }
{
    let n = octets::read_u16(image, at + image::LENGTH_OFFSET);
    let to = layout::setting_offset(octets::read_u8(image, at + image::KEY_OFFSET));
    let edition = octets::read_u32(image, at + image::EDITION_OFFSET);
    set_head(settings, to, 1, edition, n);
    octets::copy(
        image,
        at + image::VALUE_OFFSET,
        usize::from(n),
        settings,
        to + layout::SETTING_VALUE_OFFSET,
    );
    at + (image::RECORD_LENGTH + usize::from(n))
}
