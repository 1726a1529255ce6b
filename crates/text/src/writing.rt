// Writing a text into a buffer of any length. The room is measured before the first byte is written.
ghost use Rattle.std.specs.Prelude.{◌≡◌, OnErr};
ghost use Rattle.text.specs.ReadBack.{ReadsBack};
ghost use Rattle.text.specs.Room.{room_answer, written, room_number};

use crate::printable::Printable;

// The buffer is too short for the text.
#[derive(Clone, Copy)]
pub struct NoRoom;

impl NoRoom {
    pub fn number(self) -> u8
        ensures answer { result ≡ room_number }
    {
        44
    }
}

// Writes the text over the first bytes of `out`, and answers how many they are.
pub fn write<T: Printable>(text: &T, out: &mut [u8]) -> Result<usize, NoRoom>
    ensures answer { result ≡ room_answer (T.text text.now) out.old }
    ensures after { out.new ≡ written (T.text text.now) out.old }
    ensures refused { OnErr result (out.new ≡ out.old) }
    ensures law { ReadsBack }
{
    text.left_after(out.len()).ok_or(NoRoom)?;
    Ok(text.put(out, 0))
}
