//! The words behind each command's name.
ghost use Rattle.std.specs.Prelude.{◌≡◌, IfErr, IsOk, OnOk};
ghost use Rattle.iox_script.specs.Grammar.{any_id, command_of, id_of, numbers_of, options_of};
ghost use Rattle.iox_script.specs.Meanings.{IsMeaning};
ghost use Rattle.iox_script.specs.declared.command.Keyword.TheVariants as keywords;
ghost use Rattle.iox_script.specs.declared.command.ScriptCommand.TheVariants.{Service};
ghost use Rattle.iox_model.specs.declared.command.Command.TheVariants.{Port};

use super::ParseError;
use super::names::key;
use super::numerals::{id_number, number, number_up_to};
use super::texts::{is_text, text};
use super::words::Words;
use crate::command::{LineCause, ScriptCommand};
use crate::payload::Payload;
use iox_model::command::{Command, PortCommand, PortOptions};
use iox_types::identifiers::{UniqueNodeId, UniqueSystemId};
use std::alloc::Global;
use std::convert::Infallible;

/// `set KEY VALUE`
pub(super) fn set(mut words: Words<'_>) -> Result<ScriptCommand, LineCause>
    ensures { result ≡ command_of keywords.Set words.entry }
{
    let setting = words.take()?;
    let value = words.take()?;
    words.finish()?;
    let key = key(setting)?;
    let value = number_up_to(value, 1)?;
    Ok(ScriptCommand::Set { key, value })
}

/// `create NAME PROCESS SECONDS NANOSECONDS COUNTER`
pub(super) fn create(alloc: Global, mut words: Words<'_>) -> Result<ScriptCommand, ParseError>
    ensures { IsMeaning result (command_of keywords.Create words.entry) }
{
    let name = words.take()?;
    let process = words.take()?;
    let seconds = words.take()?;
    let nanoseconds = words.take()?;
    let counter = words.take()?;
    words.finish()?;
    // All words are tested before memory is asked for: a bad line never fails for want of it.
    if !is_text(name) {
        return Err(ParseError::Bad(LineCause::BadText));
    }
    let id = node_id(process, seconds, nanoseconds, counter)?;
    let name = text(alloc, name)?;
    Ok(ScriptCommand::Create { name, id })
}

/// `open PROCESS SECONDS NANOSECONDS COUNTER`
pub(super) fn open(mut words: Words<'_>) -> Result<ScriptCommand, LineCause>
    ensures { result ≡ command_of keywords.Open words.entry }
{
    let process = words.take()?;
    let seconds = words.take()?;
    let nanoseconds = words.take()?;
    let counter = words.take()?;
    words.finish()?;
    let id = node_id(process, seconds, nanoseconds, counter)?;
    Ok(ScriptCommand::Service(Command::Join { id, asked: () }))
}

/// `client NODE LENGTH`
pub(super) fn client(mut words: Words<'_>) -> Result<ScriptCommand, LineCause>
    ensures { result ≡ command_of keywords.Client words.entry }
{
    let node = words.take()?;
    let limit = words.take()?;
    words.finish()?;
    let node = number(node)?;
    let options = options(number(limit)?);
    let id = any_node_id();
    Ok(port(PortCommand::Client { node, id, options }))
}

/// `server NODE LENGTH`
pub(super) fn server(mut words: Words<'_>) -> Result<ScriptCommand, LineCause>
    ensures { result ≡ command_of keywords.Server words.entry }
{
    let node = words.take()?;
    let limit = words.take()?;
    words.finish()?;
    let node = number(node)?;
    let options = options(number(limit)?);
    let id = any_node_id();
    Ok(port(PortCommand::Server { node, id, options }))
}

/// `send-copy NODE NUMBER WORD..`
pub(super) fn send_copy(alloc: Global, mut words: Words<'_>) -> Result<ScriptCommand, ParseError>
    ensures { IsMeaning result (command_of keywords.SendCopy words.entry) }
{
    let node = words.take()?;
    let named = words.take()?;
    let node = number(node)?;
    let number = number(named)?;
    let payload = payload(alloc, words)?;
    Ok(port(PortCommand::SendCopy {
        node,
        number,
        payload,
    }))
}

/// `receive NODE NUMBER`
pub(super) fn receive(mut words: Words<'_>) -> Result<ScriptCommand, LineCause>
    ensures { result ≡ command_of keywords.Receive words.entry }
{
    let node = words.take()?;
    let named = words.take()?;
    words.finish()?;
    let node = number(node)?;
    let number = number(named)?;
    Ok(port(PortCommand::Receive { node, number }))
}

/// `read NODE HANDLE`
pub(super) fn read(mut words: Words<'_>) -> Result<ScriptCommand, LineCause>
    ensures { result ≡ command_of keywords.Read words.entry }
{
    let node = words.take()?;
    let handle = words.take()?;
    words.finish()?;
    let node = number(node)?;
    let number = number(handle)?;
    Ok(port(PortCommand::Read { node, number }))
}

/// The four words of a node's id.
fn node_id(
    process: &[u8],
    seconds: &[u8],
    nanoseconds: &[u8],
    counter: &[u8],
) -> Result<UniqueSystemId, LineCause>
    ensures { result ≡ id_of process.now seconds.now nanoseconds.now counter.now }
{
    Ok(UniqueSystemId {
        process: id_number(process)?,
        seconds: id_number(seconds)?,
        nanoseconds: id_number(nanoseconds)?,
        counter: id_number(counter)?,
    })
}

/// The id in the making of a port, which a service does not look at: it gives a port the id with
/// which the node joined.
fn any_node_id() -> UniqueNodeId
    ensures { result ≡ any_id }
{
    let id = UniqueSystemId {
        process: 1,
        seconds: 0,
        nanoseconds: 0,
        counter: 0,
    };
    let Ok(id) = UniqueNodeId::new(id) else {
        unreachable!();
    };
    id
}

/// What a port is made with: the greatest length of its messages, and nothing else.
fn options(max_slice_len: u64) -> PortOptions<Infallible>
    ensures { result ≡ options_of max_slice_len }
{
    PortOptions {
        max_slice_len,
        pool: None,
        strategy: None,
        allocation: None,
        loaned_responses: None,
        handler: None,
    }
}

fn port(command: PortCommand<Payload, Infallible>) -> ScriptCommand
    ensures { result ≡ Service (Port command) }
{
    ScriptCommand::Service(Command::Port(command))
}

/// The words that are left, each a number.
fn payload(alloc: Global, mut words: Words<'_>) -> Result<Payload, ParseError>
    ensures { IsMeaning result (numbers_of words.entry) }
{
    let Ok(mut numbers) = Vec::with_capacity(alloc, words.len()) else {
        check_numbers(words)?;
        return Err(ParseError::WantOfMemory);
    };
    while let Some(word) = words.next_word() {
        numbers.push(number(word)?).unwrap();
    }
    Ok(Payload::new(numbers))
}

/// Whether each word that is left is a number.
fn check_numbers(mut words: Words<'_>) -> Result<(), LineCause>
    ensures numbers { OnOk result (IsOk (numbers_of words.entry)) }
    ensures refused { IfErr result (λ cause. numbers_of words.entry ≡ Err cause) }
{
    while let Some(word) = words.next_word() {
        number(word)?;
    }
    Ok(())
}
