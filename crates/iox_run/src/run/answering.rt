//! The answer to a line.
ghost use Rattle.std.specs.Prelude.{◌≡◌, ℕ, OnOk, OnErr};
ghost use Rattle.iox_model.specs.declared.command.Command.TheVariants.{Port};
ghost use Rattle.iox_script.specs.Grammar.{meaning};
ghost use Rattle.iox_script.specs.declared.command.ScriptCommand.TheVariants.{Service};
ghost use Rattle.iox_session.specs.Sessions.{IsSaid};
ghost use Rattle.iox_session.specs.Shown.{session_of};
ghost use Rattle.iox_run.specs.Standings.{AnswersLine};

use iox_model::command::{Command, PortCommand};
use iox_script::{
    ParseError, Payload, ScriptCommand, parse, push_bad_line, push_reply, read_line, receive_line,
    send_copy_line,
};
use iox_session::Session;
use std::alloc::{AllocError, Global};
use std::convert::Infallible;

/// Answers the line of that number. The usual lines are answered by functions of their own, in
/// which it is known what is asked.
#[inline(always)]
pub(super) fn answer(
    alloc: Global,
    session: &mut Session,
    answers: &mut Vec<u8>,
    number: u64,
    line: &[u8],
) -> Result<(), AllocError>
    ensures answered { OnOk result (AnswersLine number (meaning line.now)
        (session_of session.old) (session_of session.new) answers.old.items answers.new.items) }
    ensures unchanged { OnErr result (answers.new.items ≡ answers.old.items) }
{
    match line {
        [b'r', b'e', b'c', ..] => answer_receive(alloc, session, answers, number, line),
        [b'r', b'e', b'a', ..] => answer_read(alloc, session, answers, number, line),
        [b's', b'e', b'n', ..] => answer_send_copy(alloc, session, answers, number, line),
        _ => answer_other(alloc, session, answers, number, line),
    }
}

/// Answers a line that may be a usual `receive`.
#[inline(never)]
fn answer_receive(
    alloc: Global,
    session: &mut Session,
    answers: &mut Vec<u8>,
    number: u64,
    line: &[u8],
) -> Result<(), AllocError>
    ensures answered { OnOk result (AnswersLine number (meaning line.now)
        (session_of session.old) (session_of session.new) answers.old.items answers.new.items) }
    ensures unchanged { OnErr result (answers.new.items ≡ answers.old.items) }
{
    match receive_line(line) {
        Some((node, number)) => {
            let command = PortCommand::Receive { node, number };
            play_port(alloc, session, answers, command)
        }
        None => answer_other(alloc, session, answers, number, line),
    }
}

/// Answers a line that may be a usual `read`.
#[inline(never)]
fn answer_read(
    alloc: Global,
    session: &mut Session,
    answers: &mut Vec<u8>,
    number: u64,
    line: &[u8],
) -> Result<(), AllocError>
    ensures answered { OnOk result (AnswersLine number (meaning line.now)
        (session_of session.old) (session_of session.new) answers.old.items answers.new.items) }
    ensures unchanged { OnErr result (answers.new.items ≡ answers.old.items) }
{
    match read_line(line) {
        Some((node, number)) => {
            let command = PortCommand::Read { node, number };
            play_port(alloc, session, answers, command)
        }
        None => answer_other(alloc, session, answers, number, line),
    }
}

/// Answers a line that may be a usual `send-copy`.
#[inline(never)]
fn answer_send_copy(
    alloc: Global,
    session: &mut Session,
    answers: &mut Vec<u8>,
    number: u64,
    line: &[u8],
) -> Result<(), AllocError>
    ensures answered { OnOk result (AnswersLine number (meaning line.now)
        (session_of session.old) (session_of session.new) answers.old.items answers.new.items) }
    ensures unchanged { OnErr result (answers.new.items ≡ answers.old.items) }
{
    match send_copy_line(alloc, line) {
        Some((node, number, payload)) => {
            let command = PortCommand::SendCopy {
                node,
                number,
                payload,
            };
            play_port(alloc, session, answers, command)
        }
        None => answer_other(alloc, session, answers, number, line),
    }
}

/// Answers any line.
#[inline(never)]
fn answer_other(
    alloc: Global,
    session: &mut Session,
    answers: &mut Vec<u8>,
    number: u64,
    line: &[u8],
) -> Result<(), AllocError>
    ensures answered { OnOk result (AnswersLine number (meaning line.now)
        (session_of session.old) (session_of session.new) answers.old.items answers.new.items) }
    ensures unchanged { OnErr result (answers.new.items ≡ answers.old.items) }
{
    match parse(alloc, line) {
        Ok(command) => play(alloc, session, answers, command),
        Err(ParseError::Bad(cause)) => push_bad_line(answers, number, cause),
        Err(ParseError::WantOfMemory) => Err(AllocError),
    }
}

/// Plays what is asked of a port or a handle, and appends the reply.
#[inline(always)]
fn play_port(
    alloc: Global,
    session: &mut Session,
    answers: &mut Vec<u8>,
    command: PortCommand<Payload, Infallible>,
) -> Result<(), AllocError>
    requires said { IsSaid (Service (Port command)) }
    ensures answered { OnOk result ((number : ℕ) → AnswersLine number
        (Ok (Service (Port command))) (session_of session.old) (session_of session.new)
        answers.old.items answers.new.items) }
    ensures unchanged { OnErr result (answers.new.items ≡ answers.old.items) }
{
    play(
        alloc,
        session,
        answers,
        ScriptCommand::Service(Command::Port(command)),
    )
}

/// Plays a command, and appends the reply.
#[inline(always)]
fn play(
    alloc: Global,
    session: &mut Session,
    answers: &mut Vec<u8>,
    command: ScriptCommand,
) -> Result<(), AllocError>
    requires said { IsSaid command }
    ensures answered { OnOk result ((number : ℕ) → AnswersLine number (Ok command)
        (session_of session.old) (session_of session.new) answers.old.items answers.new.items) }
    ensures unchanged { OnErr result (answers.new.items ≡ answers.old.items) }
{
    let reply = session.play(alloc, command)?;
    push_reply(answers, &reply)
}
