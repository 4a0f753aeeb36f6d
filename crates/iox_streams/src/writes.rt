//! All the writes of a text, and a flush.
ghost use Rattle.std.specs.Prelude.{◌≡◌, IfErr};
ghost use Rattle.std.specs.Io.KnownBytes.{Keeps};
ghost use Rattle.iox_streams.specs.Writes.{Sends, SendsAll};

use crate::fault::Fault;
use std::io::{ErrorKind, Write};

/// Writes all the bytes, and flushes. A write that a signal interrupted is tried again; the turns
/// are counted, so that the loop ends.
pub fn send<W: Write>(writer: &mut W, bytes: &[u8]) -> Result<(), Fault>
    ensures { Sends (W.contents writer.old) (W.contents writer.new) (SendsAll bytes.now result) }
{
    let mut sent = 0;
    'writes: for _ in 0..u64::MAX {
        if sent >= bytes.len() {
            return flush(writer);
        }
        match writer.write(&bytes[sent..]) {
            Ok(0) => return Err(Fault::Write),
            Ok(n) => sent += n,
            Err(error) => {
                if error.kind() != ErrorKind::Interrupted {
                    return Err(Fault::Write);
                }
            }
        }
    }
    Err(Fault::Write)
}

/// Flushes. A flush that a signal interrupted is tried again, as writes are.
fn flush<W: Write>(writer: &mut W) -> Result<(), Fault>
    ensures bytes { Keeps (W.contents writer.old) (W.contents writer.new) }
    ensures fault { IfErr result (λ fault. fault ≡ Fault.Write) }
{
    'flushes: for _ in 0..u64::MAX {
        match writer.flush() {
            Ok(()) => return Ok(()),
            Err(error) => {
                if error.kind() != ErrorKind::Interrupted {
                    return Err(Fault::Write);
                }
            }
        }
    }
    Err(Fault::Write)
}
