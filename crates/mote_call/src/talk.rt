//! What the natives of the library say to a console.

ghost use Rattle.std.specs.Prelude.{◌≡◌, [], ◌∷◌, IfOk};
ghost use Rattle.std.specs.Fmt.{signed_decimal};
ghost use Rattle.dialogue.specs.Dialogue.{Get, putting};
ghost use Rattle.dialogue.specs.Natives.{low_byte as low_byte_of};
ghost use Rattle.host_face.specs.Talk.{Says};
ghost use Rattle.mote_call.specs.Reads.{IsRead};

use host_face::{Console, ConsoleFailed};

/// The low eight bits of a number.
pub(crate) fn low_byte(number: i32) -> u8
    ensures { result ≡ low_byte_of number }
{
    (number.cast_unsigned() % 256) as u8
}

/// Shows each of the bytes.
pub(crate) fn show<C: Console>(console: &mut C, bytes: &[u8]) -> Result<(), ConsoleFailed>
    ensures said { Says C.left C.shown C.noted C.faults C.room console.old console.new (putting bytes.now) result }
    ensures left { C.left console.new ≡ C.left console.old }
{
    for byte in bytes {
        console.put(*byte)?;
    }
    Ok(())
}

/// The value of the next byte, or -1 where none is left.
pub(crate) fn read<C: Console>(console: &mut C) -> Result<i32, ConsoleFailed>
    ensures said { Says C.left C.shown C.noted C.faults C.room console.old console.new (Get ∷ []) result }
    ensures number { IfOk result (λ number. IsRead (C.left console.old) (C.left console.new) number) }
{
    match console.get()? {
        Some(byte) => Ok(i32::from(byte)),
        None => Ok(-1),
    }
}
