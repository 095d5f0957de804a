// The passphrase's frame: the reader's part keeps nothing of a key set of the passphrase.
// Assumes nothing: no function here has a `requires`.
ghost use Rattle.std.specs.Prelude.{◌≡◌};
ghost use Rattle.responder.specs.Receive.{behind_message};

use line::numbers;
use supervisor::layout;

// Begins the reader's part anew behind such a message, whatever the table says of it.
pub(crate) fn wipe_passphrase(reader: &mut [u8], command: u8, length: usize)
    ensures { reader.new ≡ behind_message reader.old command length }
{
    if command != numbers::COMMAND_KEY_SET {
        return;
    }
    let key = octets::read_u8(line::reader::message_data(reader, length), 0);
    if key == layout::PASSPHRASE_KEY {
        let _ = line::reader::start(reader);
    }
}
