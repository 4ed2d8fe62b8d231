ghost use Rattle.std.specs.Prelude.{◌≡◌, ◌<◌, ◌≤◌, ◌∷◌, [], length, IfOk, IfSome, OnOk, OnErr, IsErrOf, vec_len};
ghost use Rattle.std.specs.Option.{option_to_list};
ghost use Rattle.std.specs.Io.{ReadsAtMost, WritesAtMost};
ghost use Rattle.std.specs.Io.KnownBytes.{ReadConsumes, WriteAppends, Consumes, Appends, Keeps, IsAtEnd};
ghost use Rattle.host_face.specs.Streams.{AppendsPrefix};

use crate::Memory;
use crate::shelf::ShelfFail;
use std::alloc::Global;
use std::io::{ErrorKind, Read, Write};

/// The most bytes that a whole read takes.
const MOST_BYTES: usize = 1_073_741_824;

/// A stream failed, or took none of what it was to write.
#[derive(Clone, Copy, Debug, PartialEq, Eq)]
pub(crate) struct StreamFailed;

/// Why a whole read ended before the end of the stream.
#[derive(Clone, Copy, Debug, PartialEq, Eq)]
pub(crate) enum ReadFailed {
    /// A read failed.
    Stream,
    /// The stream has more than 1,073,741,824 bytes.
    TooLarge,
    /// There was no memory for the bytes.
    Memory,
}

impl From<Memory> for ReadFailed {
    ghost use Rattle.host_face.specs.declared.streams.ReadFailed.{ReadFailed};

    ghost from_gives = { λ _ why. why ≡ ReadFailed.Memory };

    fn from(_memory: Memory) -> ReadFailed {
        ReadFailed::Memory
    }
}

impl From<ReadFailed> for ShelfFail {
    ghost use Rattle.host_face.specs.Streams.{shelf_fail};

    ghost from_gives = { λ why fail. fail ≡ shelf_fail why };

    fn from(why: ReadFailed) -> ShelfFail {
        match why {
            ReadFailed::Stream | ReadFailed::TooLarge => ShelfFail::Failed,
            ReadFailed::Memory => ShelfFail::Memory,
        }
    }
}

/// One read, tried again as long as it is interrupted. A failure takes nothing.
fn read_some<R: Read>(reader: &mut R, buffer: &mut [u8]) -> Result<usize, StreamFailed>
    ensures bound { ReadsAtMost result buffer.new }
    ensures bytes { ReadConsumes (R.remaining reader.old) (R.remaining reader.new) result buffer.new }
{
    for _ in 0..u64::MAX {
        match reader.read(buffer) {
            Ok(count) => return Ok(count),
            Err(error) => {
                if error.kind() != ErrorKind::Interrupted {
                    return Err(StreamFailed);
                }
            }
        }
    }
    Err(StreamFailed)
}

/// One write of bytes of which there is at least one, tried again as long as it is interrupted. It takes
/// one or more of them; a failure appends nothing.
fn write_some<W: Write>(writer: &mut W, bytes: &[u8]) -> Result<usize, StreamFailed>
    ensures bound { WritesAtMost result bytes.now }
    ensures some { IfOk result (λ count. 0 < count) }
    ensures bytes { WriteAppends (W.contents writer.old) (W.contents writer.new) result bytes.now }
{
    for _ in 0..u64::MAX {
        match writer.write(bytes) {
            Ok(0) => return Err(StreamFailed),
            Ok(count) => return Ok(count),
            Err(error) => {
                if error.kind() != ErrorKind::Interrupted {
                    return Err(StreamFailed);
                }
            }
        }
    }
    Err(StreamFailed)
}

/// The next byte, or nothing at the end. A failure takes nothing.
pub(crate) fn read_byte<R: Read>(reader: &mut R) -> Result<Option<u8>, StreamFailed>
    ensures byte { IfOk result (λ byte.
        Consumes (R.remaining reader.old) (R.remaining reader.new) (option_to_list byte)) }
    ensures end { IfOk result (λ byte. byte ≡ None → IsAtEnd (R.remaining reader.new)) }
    ensures refused { OnErr result (Keeps (R.remaining reader.old) (R.remaining reader.new)) }
{
    let mut buffer = [0];
    match read_some(reader, &mut buffer)? {
        0 => Ok(None),
        _ => Ok(Some(buffer[0])),
    }
}

/// Writes the byte. A failure appends nothing.
pub(crate) fn write_byte<W: Write>(writer: &mut W, byte: u8) -> Result<(), StreamFailed>
    ensures written { OnOk result
        (Appends (W.contents writer.old) (W.contents writer.new) (byte ∷ [])) }
    ensures refused { OnErr result (Keeps (W.contents writer.old) (W.contents writer.new)) }
{
    write_some(writer, &[byte])?;
    Ok(())
}

/// All bytes up to the end, of which there are at most 1,073,741,824.
pub(crate) fn read_whole<R: Read>(alloc: Global, reader: &mut R) -> Result<Vec<u8>, ReadFailed>
    ensures bytes { IfOk result (λ bytes.
        Consumes (R.remaining reader.old) (R.remaining reader.new) bytes.items) }
    ensures end { OnOk result (IsAtEnd (R.remaining reader.new)) }
    ensures most { IfOk result (λ bytes. vec_len bytes ≤ 1073741824) }
    ensures too_large { IsErrOf result ReadFailed.TooLarge →
        IfSome (R.remaining reader.old) (λ bytes. 1073741824 < length bytes) }
{
    let mut bytes = Vec::new(alloc);
    let mut buffer = [0; 4096];
    'pieces: loop {
        let Ok(count) = read_some(reader, &mut buffer) else {
            return Err(ReadFailed::Stream);
        };
        if count == 0 {
            return Ok(bytes);
        }
        if count > MOST_BYTES - bytes.len() {
            return Err(ReadFailed::TooLarge);
        }
        bytes.extend_from_slice(&buffer[..count])?;
    }
}

/// Writes all the bytes. After a failure it has appended a proper prefix of them.
pub(crate) fn write_whole<W: Write>(writer: &mut W, bytes: &[u8]) -> Result<(), StreamFailed>
    ensures written { OnOk result (Appends (W.contents writer.old) (W.contents writer.new) bytes.now) }
    ensures refused { OnErr result
        (AppendsPrefix (W.contents writer.old) (W.contents writer.new) bytes.now) }
{
    let mut written = 0;
    while written < bytes.len() {
        let count = write_some(writer, &bytes[written..])?;
        written += count;
    }
    Ok(())
}
