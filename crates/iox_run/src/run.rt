//! A script played from a reader to a writer.
ghost use Rattle.std.specs.Prelude.{OnOk};
ghost use Rattle.std.specs.Io.KnownBytes.{IsAtEnd};
ghost use Rattle.iox_run.specs.Runs.{Plays};

mod answering;
mod cuts;
mod player;

use iox_streams::{Fault, read_within};
use player::Player;
use std::alloc::Global;
use std::io::{Read, Write};

/// The most bytes of a script.
const MAX_SCRIPT: u64 = 1 << 32;

/// The most bytes of one read.
const CHUNK: usize = 8192;

/// Plays the script that the reader gives, and writes the answers to it and nothing else.
pub fn run<R: Read, W: Write>(alloc: Global, reader: &mut R, writer: &mut W) -> Result<(), Fault>
    // What goes out is the text of replies that the machine may give to the script that came in;
    // after a fault it is a beginning of such a text, as `AnswersScript` says.
    ensures text { Plays (R.remaining reader.old) (R.remaining reader.new)
        (W.contents writer.old) (W.contents writer.new) result }
    ensures ended { OnOk result (IsAtEnd (R.remaining reader.new)) }
{
    let mut player = Player::new(alloc)?;
    let mut buffer = vec![in alloc; 0; CHUNK]?;
    let chunk = buffer.as_mut_slice();
    let mut room = MAX_SCRIPT;
    'reads: loop {
        let n = read_within(reader, chunk, room)?;
        if n == 0 {
            return player.finish(alloc, writer);
        }
        player.play(alloc, &chunk[..n], writer)?;
        room -= n as u64;
    }
}
