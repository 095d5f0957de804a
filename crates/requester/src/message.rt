// A good message that the line reader handed out.
// Assumes nothing.
ghost use Rattle.std.specs.Prelude.{◌≡◌, length};

use line::reader::Head;

// Its head, and its data where they lie.
#[derive(Clone, Copy)]
pub(crate) struct Message<'a> {
    pub head: Head,
    pub data: &'a [u8],
    ghost sized: { length «data».now ≡ head.length },
}
