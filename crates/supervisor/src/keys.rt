// Keys: a value is handed out as a part of the store that holds it.
// Assumes nothing: no public function here has a `requires`.
ghost use Rattle.std.specs.Prelude.{◌≡◌, ◌&&◌, ◌<◌};
ghost use Rattle.octets.specs.Bytes.{run};
ghost use Rattle.supervisor.specs.Valid.{valid_factory, valid_settings};
ghost use Rattle.supervisor.specs.Calls.{result_number, lookup_number, lookup_report, lookup_result_promise, lookup_promise, lookup_place};
ghost use Rattle.supervisor.specs.Calls.{edition_report, edition_promise, edition_number, location_of, setting_at, sized};
ghost use Rattle.supervisor.specs.Calls.{within, part_within, found_at_promise, edition_at_promise, value_at_promise, value_at_place};

use crate::{layout, valid};

// Why a key has no value, or none that is handed out.
#[derive(Clone, Copy, Debug, PartialEq, Eq)]
pub enum LookupError {
    Refused,
    BadKey,
    NoValue,
    TooLong,
    SetOnly,
}

impl LookupError {
    // The number of such a result.
    pub fn number(self) -> u8
        ensures { result ≡ lookup_number self }
    {
        match self {
            LookupError::Refused => 12,
            LookupError::BadKey => 1,
            LookupError::NoValue => 2,
            LookupError::TooLong => 3,
            LookupError::SetOnly => 4,
        }
    }
}

// Where a key's value lies: from which byte, and how many; the value of a key that is only set is not handed out.
// An enum of its own: an `Option` of the two stores in a `Result` would name four cases in three layers.
#[derive(Clone, Copy, Debug, PartialEq, Eq)]
pub enum Location {
    Factory(usize, usize),
    Settings(usize, usize),
    Nowhere,
    SetOnly,
}

// The value of a key, if it has at most `most` bytes; an empty part where `lookup_result` is not 0.
// The stores are two slices, as C lends them.
#[tactic(auto, unfolding(crate::specs::Calls::lookup_promise, crate::specs::Calls::lookup_place))]
pub fn lookup<'a>(factory: &'a [u8], settings: &'a [u8], key: u8, most: u16) -> &'a [u8]
    ensures result_value { result.now ≡ lookup_promise factory.now settings.now key most }
    ensures ref_ptr_value { result.ref_ptr ≡ lookup_place factory.entry settings.entry key most }
{
    if !stores_are_valid(factory, settings) {
        return &factory[0..0];
    }
    let p = find(factory, settings, key);
    value_at(factory, settings, key, p, most)
}

// The result of a lookup.
#[tactic(auto, unfolding(crate::specs::Calls::lookup_result_promise))]
pub fn lookup_result(
    factory: &[u8],
    settings: &[u8],
    key: u8,
    most: u16,
) -> Result<usize, LookupError>
    ensures { lookup_report result ≡ lookup_result_promise factory.now settings.now key most }
{
    if !stores_are_valid(factory, settings) {
        return Err(LookupError::Refused);
    }
    let p = find(factory, settings, key);
    found_at(key, p, most)
}

// The edition of a key that has a value.
#[tactic(auto, unfolding(crate::specs::Calls::edition_promise))]
pub fn edition(factory: &[u8], settings: &[u8], key: u8) -> Result<u32, LookupError>
    ensures { edition_report result ≡ edition_promise factory.now settings.now key }
{
    if !stores_are_valid(factory, settings) {
        return Err(LookupError::Refused);
    }
    let p = find(factory, settings, key);
    edition_at(settings, key, p)
}

// Whether both stores pass the tests for 12.
fn stores_are_valid(factory: &[u8], settings: &[u8]) -> bool
    ensures { result ≡ (valid_factory factory.now && valid_settings settings.now) }
{
    valid::factory_is_valid(factory) && valid::settings_are_valid(settings)
}

// Where the value of a key from 0 to 6 lies. This and what follows tests no store for 12.
#[tactic(auto, unfolding(crate::specs::Calls::location_of))]
pub fn find(factory: &[u8], settings: &[u8], key: u8) -> Location
    ensures { result ≡ location_of factory.now settings.now key }
{
    match key {
        0 => Location::Factory(layout::PONG_OFFSET, layout::PONG_LENGTH),
        1 => {
            let n = octets::read_u8(factory, layout::IMAGE_ID_LENGTH_OFFSET);
            Location::Factory(layout::IMAGE_ID_OFFSET, usize::from(n))
        }
        2 => Location::Factory(layout::ITEM_COUNT_OFFSET, 8),
        layout::PASSPHRASE_KEY => Location::SetOnly,
        _ => setting(settings, layout::setting_offset(key)),
    }
}

// Where the value of the setting at an offset lies, if it has one.
#[tactic(auto, unfolding(crate::specs::Calls::setting_at))]
fn setting(settings: &[u8], at: usize) -> Location
    requires { at < 65536 }
    ensures { result ≡ setting_at settings.now at }
{
    if octets::read_u8(settings, at) != 1 {
        return Location::Nowhere;
    }
    let n = octets::read_u16(settings, at + layout::SETTING_LENGTH_OFFSET);
    Location::Settings(at + layout::SETTING_VALUE_OFFSET, usize::from(n))
}

// The value of a key that lies at p, if it has at most `most` bytes. The stores are two slices, as C lends them.
#[tactic(auto, unfolding(crate::specs::Calls::value_in, crate::specs::Calls::part_place_at))]
pub fn value_at<'a>(
    factory: &'a [u8],
    settings: &'a [u8],
    key: u8,
    p: Location,
    most: u16,
) -> &'a [u8]
    ensures result_value { result.now ≡ value_at_promise factory.now settings.now key most p }
    ensures ref_ptr_value { result.ref_ptr ≡ value_at_place factory.entry settings.entry key most p }
{
    if layout::HIGHEST_KEY < key {
        return &factory[0..0];
    }
    match p {
        Location::Factory(at, n) => part(factory, at, n, most),
        Location::Settings(at, n) => part(settings, at, n, most),
        Location::Nowhere | Location::SetOnly => &factory[0..0],
    }
}

// The n bytes of s from an offset on, if they are at most `most`.
fn part<'a>(s: &'a [u8], at: usize, n: usize, most: u16) -> &'a [u8]
    ensures result_value { result.now ≡ within most n (run at n s.now) }
    ensures ref_ptr_value { result.ref_ptr ≡ part_within most n s.entry at }
{
    if usize::from(most) < n {
        return &s[0..0];
    }
    octets::part(s, at, n)
}

// What a lookup of a key says whose value lies at p.
#[tactic(auto, unfolding(crate::specs::Calls::result_at))]
pub fn found_at(key: u8, p: Location, most: u16) -> Result<usize, LookupError>
    ensures { lookup_report result ≡ found_at_promise key most p }
{
    if layout::HIGHEST_KEY < key {
        return Err(LookupError::BadKey);
    }
    match p {
        Location::Factory(_, n) | Location::Settings(_, n) => size(n, most),
        Location::Nowhere => Err(LookupError::NoValue),
        Location::SetOnly => Err(LookupError::SetOnly),
    }
}

// What a lookup says of a value of n bytes.
fn size(n: usize, most: u16) -> Result<usize, LookupError>
    ensures { lookup_report result ≡ sized most n }
{
    if usize::from(most) < n {
        return Err(LookupError::TooLong);
    }
    Ok(n)
}

// The number of a lookup's result.
pub fn result_number(found: Result<usize, LookupError>) -> u8
    ensures { result ≡ result_number (lookup_report found) }
{
    match found {
        Ok(_) => 0,
        Err(why) => why.number(),
    }
}

// The edition of a key whose value lies at p.
#[tactic(auto, unfolding(crate::specs::Calls::edition_report_at))]
pub fn edition_at(settings: &[u8], key: u8, p: Location) -> Result<u32, LookupError>
    ensures { edition_report result ≡ edition_at_promise settings.now key p }
{
    if layout::HIGHEST_KEY < key {
        return Err(LookupError::BadKey);
    }
    let at = layout::setting_offset(key) + layout::SETTING_EDITION_OFFSET;
    match p {
        Location::Factory(_, _) => Ok(0),
        Location::Settings(_, _) => Ok(octets::read_u32(settings, at)),
        Location::Nowhere => Err(LookupError::NoValue),
        Location::SetOnly => Err(LookupError::SetOnly),
    }
}

// The edition, 0 where none is handed out.
pub fn edition_number(found: Result<u32, LookupError>) -> u32
    ensures { result ≡ edition_number (edition_report found) }
{
    found.unwrap_or(0)
}
