//! One read into a buffer.
ghost use Rattle.std.specs.Prelude.{◌≡◌, ◌<◌, length, IfErr};
ghost use Rattle.std.specs.Io.{ReadsAtMost};
ghost use Rattle.std.specs.Io.KnownBytes.{ReadConsumes};
ghost use Rattle.iox_streams.specs.Reads.{ReadsWithin};

use crate::fault::Fault;
use std::io::{ErrorKind, Read};

/// Reads once, at most so many bytes. With room for none it reads one, to see whether any is left.
pub fn read_within<R: Read>(reader: &mut R, chunk: &mut [u8], room: u64) -> Result<usize, Fault>
    requires { 0 < length chunk.old }
    ensures { ReadsWithin room (R.remaining reader.old) (R.remaining reader.new) result chunk.new }
{
    let most = room.max(1).min(chunk.len() as u64) as usize;
    let n = read_some(reader, &mut chunk[..most])?;
    if n as u64 > room {
        return Err(Fault::Read);
    }
    Ok(n)
}

/// Reads once. A read that a signal interrupted is tried again; the turns are counted, so that the
/// loop ends.
fn read_some<R: Read>(reader: &mut R, buf: &mut [u8]) -> Result<usize, Fault>
    ensures bound { ReadsAtMost result buf.new }
    ensures bytes { ReadConsumes (R.remaining reader.old) (R.remaining reader.new) result buf.new }
    ensures fault { IfErr result (λ fault. fault ≡ Fault.Read) }
{
    'reads: for _ in 0..u64::MAX {
        match reader.read(buf) {
            Ok(n) => return Ok(n),
            Err(error) => {
                if error.kind() != ErrorKind::Interrupted {
                    return Err(Fault::Read);
                }
            }
        }
    }
    Err(Fault::Read)
}
