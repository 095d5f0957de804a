// The image: its longest length, where the fields of a record lie, and a record's checksum.
// Numbers are little-endian. Assumes nothing.
ghost use Rattle.std.specs.Prelude.{◌≡◌};
ghost use Rattle.octets.specs.Bytes.{run};
ghost use Rattle.line.specs.Checksum.{checksum};
ghost use Rattle.saving.specs.Calls.{longest_image};

use supervisor::layout;

// The saved settings are those from the first to this one.
pub(crate) const HIGHEST_SAVED: u8 = 5;

// A record: mark, key u8, edition u32, length u16, value, checksum u16.
pub(crate) const MARK_LENGTH: usize = 2;

pub(crate) const KEY_OFFSET: usize = 2;

pub(crate) const EDITION_OFFSET: usize = 3;

pub(crate) const LENGTH_OFFSET: usize = 7;

pub(crate) const VALUE_OFFSET: usize = 9;

// A record without its value.
pub(crate) const RECORD_LENGTH: usize = VALUE_OFFSET + 2;

// Every saved setting at its longest, and the end mark.
pub const LONGEST_IMAGE: usize = 3 * RECORD_LENGTH
    + layout::LONGEST_KEY_3
    + layout::LONGEST_KEY_4
    + layout::LONGEST_KEY_5
    + MARK_LENGTH;

// The length of a room that takes every image.
pub fn longest_image() -> usize
    ensures { result ≡ longest_image }
{
    LONGEST_IMAGE
}

// The checksum of n bytes from an offset on.
pub(crate) fn checksum_of(image: &[u8], at: usize, n: usize) -> u16
    ensures { result ≡ checksum (run at n image.now) }
{
    line::sums::checksum(octets::part(image, at, n))
}
