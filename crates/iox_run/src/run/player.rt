//! What a run keeps from one read to the next.
ghost use Rattle.std.specs.Prelude.{◌≡◌, ◌+◌, ◌-◌, ◌++◌, length, take, OnOk};
ghost use Rattle.iox_script.specs.Grammar.{max_line};

use super::answering::answer;
use super::cuts::first_line;
use iox_session::Session;
use iox_streams::{Fault, send};
use std::alloc::{AllocError, Global};
use std::io::Write;

/// As many bytes of a line as tell what it says: it is too long, or this is all of it.
const KEPT: usize = 65_537;

/// Answers are sent when they have so many bytes.
const BATCH: usize = 8192;

#[derive(Drop)]
pub(super) struct Player {
    /// What the lines so far left.
    session: Session,
    /// How many lines have ended.
    count: u64,
    /// The first bytes of a line that has begun.
    line: Vec<u8>,
    /// Answers that have not been sent.
    answers: Vec<u8>,
}

impl Player {
    ghost use Rattle.std.specs.Prelude.{◌≡◌, ◌+◌, ◌*◌, ◌^◌, ◌<◌, ◌≤◌, [], ◌∷◌, ◌++◌, length, IfOk, OnOk, OnErr};
    ghost use Rattle.iox_run.specs.Cuts.{HasNoLineFeed};
    ghost use Rattle.iox_streams.specs.Writes.{Sends, SendsAll};
    ghost use Rattle.iox_run.specs.Standings.{IsAsFar, Goes, IsSent, TakesUpTo, Waits, PlaysOn, Finishes};

    /// A player before the script's first byte.
    pub(super) fn new(alloc: Global) -> Result<Player, AllocError>
        ensures stands { IfOk result (λ player. IsAsFar [] [] player) }
        ensures sent { IfOk result (λ player. IsSent player) }
    {
        Ok(Player {
            session: Session::new(),
            count: 0,
            line: Vec::with_capacity(alloc, KEPT)?,
            answers: Vec::with_capacity(alloc, 2 * BATCH)?,
        })
    }

    /// Plays the bytes. Where memory runs out, the answers up to there are sent.
    pub(super) fn play<W: Write>(
        &mut self,
        alloc: Global,
        bytes: &[u8],
        writer: &mut W,
    ) -> Result<(), Fault>
        requires { self.old.count + length bytes.now < 2 ^ 64 }
        ensures { Sends (W.contents writer.old) (W.contents writer.new)
            (PlaysOn bytes.now self.old self.new result) }
    {
        let mut rest = bytes;
        'pieces: while !rest.is_empty() {
            match self.take(alloc, rest) {
                Ok(others) => rest = others,
                Err(_) => {
                    self.send(writer)?;
                    return Err(Fault::WantOfMemory);
                }
            }
            if self.answers.len() < BATCH {
                continue;
            }
            self.send(writer)?;
        }
        self.send(writer)
    }

    /// Plays a last line that no line feed ended, if there is one.
    pub(super) fn finish<W: Write>(mut self, alloc: Global, writer: &mut W) -> Result<(), Fault>
        requires { self.count + 1 < 2 ^ 64 }
        ensures { Sends (W.contents writer.old) (W.contents writer.new) (Finishes self result) }
    {
        if !self.line.is_empty() {
            self.end_line(alloc, &[])?;
        }
        self.send(writer)
    }

    /// Takes the bytes up to the first line feed and answers their line, or takes and keeps them
    /// all, and gives back the rest.
    fn take<'a>(&mut self, alloc: Global, bytes: &'a [u8]) -> Result<&'a [u8], AllocError>
        requires { self.old.count + length bytes.now < 2 ^ 64 }
        ensures taken { IfOk result (λ rest. TakesUpTo rest.now bytes.now self.old self.new) }
        ensures shorter { IfOk result (λ rest. 0 < length bytes.now
            → length rest.now < length bytes.now) }
        ensures count { IfOk result (λ rest.
            self.new.count + length rest.now ≤ self.old.count + length bytes.now) }
        ensures unchanged { OnErr result (self.new.answers.items ≡ self.old.answers.items) }
    {
        match first_line(bytes) {
            Some((line, rest)) => {
                self.end_line(alloc, line)?;
                Ok(rest)
            }
            None => {
                keep(&mut self.line, bytes)?;
                Ok(&[])
            }
        }
    }

    /// Ends the line that has begun with these bytes, and answers it.
    #[inline(always)]
    fn end_line(&mut self, alloc: Global, bytes: &[u8]) -> Result<(), AllocError>
        requires whole { HasNoLineFeed bytes.now }
        requires count { self.old.count + 1 < 2 ^ 64 }
        ensures played { OnOk result (Goes (bytes.now ++ 10 ∷ []) [] self.old self.new) }
        ensures count { OnOk result (self.new.count ≡ self.old.count + 1) }
        ensures unchanged { OnErr result (self.new.answers.items ≡ self.old.answers.items) }
    {
        let number = self.count + 1;
        if self.line.is_empty() {
            answer(alloc, &mut self.session, &mut self.answers, number, bytes)?;
        } else {
            keep(&mut self.line, bytes)?;
            answer(
                alloc,
                &mut self.session,
                &mut self.answers,
                number,
                self.line.as_slice(),
            )?;
            self.line.clear();
        }
        self.count = number;
        Ok(())
    }

    /// Sends the answers that wait.
    fn send<W: Write>(&mut self, writer: &mut W) -> Result<(), Fault>
        ensures sends { Sends (W.contents writer.old) (W.contents writer.new)
            (SendsAll self.old.answers.items result) }
        ensures others { Waits self.old self.new }
        ensures sent { OnOk result (IsSent self.new) }
    {
        if self.answers.is_empty() {
            return Ok(());
        }
        send(writer, self.answers.as_slice())?;
        self.answers.clear();
        Ok(())
    }
}

/// Adds bytes to a line that has begun, as many as are kept.
fn keep(line: &mut Vec<u8>, bytes: &[u8]) -> Result<(), AllocError>
    ensures kept { OnOk result (line.new.items
        ≡ line.old.items ++ take (max_line + 1 - length line.old.items) bytes.now) }
{
    let most = KEPT.saturating_sub(line.len()).min(bytes.len());
    line.extend_from_slice(&bytes[..most])
}
