//! A text read from a reader, and a piece written to a writer, by as many calls of theirs as it takes.
ghost use Rattle.std.specs.Prelude.{◌≡◌, ◌<◌, ◌≤◌, length, IfOk, IsErrOf, OnOk, OnErr};
ghost use Rattle.std.specs.Io.KnownBytes.{Appends};
ghost use Rattle.io_ports.specs.Transfer.{AppendsSome, IsAllOf, IsMoreThan};

use crate::errors::LoadErr;
use crate::fault_kind::FaultKind;
use loc_base::Bytes;
use std::alloc::Global;
use std::io::{Read, Write};

/// How many bytes one read asks for.
const PIECE: usize = 262_144;

/// What a reader gives, to its end. `TooBig` comes where it gives more than `limit` bytes.
pub fn read_text<R: Read>(alloc: Global, reader: &mut R, limit: u64) -> Result<Bytes, LoadErr>
    ensures limit { IfOk result (λ text. length text ≤ limit) }
    ensures text { IfOk result (IsAllOf (R.remaining reader.old)) }
    ensures too_big { IsErrOf result LoadErr.TooBig → IsMoreThan limit (R.remaining reader.old) }
{
    let mut buffer = vec![in alloc; 0u8; PIECE]?;
    read_through(alloc, reader, buffer.as_mut_slice(), limit)
}

/// The same through a buffer that each read fills as far as it can.
fn read_through<R: Read>(
    alloc: Global,
    reader: &mut R,
    buffer: &mut [u8],
    limit: u64,
) -> Result<Bytes, LoadErr>
    requires { 0 < length buffer.old }
    ensures limit { IfOk result (λ text. length text ≤ limit) }
    ensures text { IfOk result (IsAllOf (R.remaining reader.old)) }
    ensures too_big { IsErrOf result LoadErr.TooBig → IsMoreThan limit (R.remaining reader.old) }
{
    let mut text = Bytes::new(alloc);
    while text.len() as u64 <= limit {
        let count = match reader.read(buffer) {
            Ok(count) => count,
            Err(error) => return Err(LoadErr::Failed(FaultKind::from(error))),
        };
        if count == 0 {
            return Ok(text);
        }
        text.append(&buffer[..count])?;
    }
    Err(LoadErr::TooBig)
}

/// Writes a piece. The writer took all of it, or a front of it where it failed.
pub fn write_piece<W: Write>(writer: &mut W, piece: &[u8]) -> Result<(), FaultKind>
    ensures taken { OnOk result (Appends (W.contents writer.old) (W.contents writer.new) piece.now) }
    ensures front { OnErr result (AppendsSome (W.contents writer.old) (W.contents writer.new) piece.now) }
{
    let mut rest = piece;
    while !rest.is_empty() {
        let count = match writer.write(rest) {
            Ok(count) => count,
            Err(error) => return Err(FaultKind::from(error)),
        };
        if count == 0 {
            return Err(FaultKind::Other);
        }
        rest = &rest[count..];
    }
    Ok(())
}
