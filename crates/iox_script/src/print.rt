//! From an answer to its text.
ghost use Rattle.std.specs.Prelude.{◌≡◌, ◌+◌, ◌<◌, ◌++◌, codes, length, take, flat_map, IsOk, OnOk, OnErr};
ghost use Rattle.iox_model.specs.declared.reply.Reply.TheVariants.{Answer};
ghost use Rattle.iox_script.specs.Texts.{as_line, bad_line_text, cause_text, refusal_text, reply_text, script_refusal_text, service_text, spaced};

use crate::command::LineCause;
use crate::reply::{ScriptRefusal, ScriptReply, ServiceRefusal, ServiceReply};
use iox_model::reply::{Refusal, Reply};
use itoa::Buffer;
use std::alloc::AllocError;
use std::fmt;

/// Appends a reply as a line. Where there is no memory, `out` is unchanged.
#[inline(always)]
pub fn push_reply(out: &mut Vec<u8>, reply: &ScriptReply) -> Result<(), AllocError>
    ensures written { OnOk result (out.new.items
        ≡ out.old.items ++ as_line (reply_text reply.now)) }
    ensures unchanged { OnErr result (out.new.items ≡ out.old.items) }
{
    match reply {
        ScriptReply::Service(reply) => push_service_reply(out, reply),
        ScriptReply::Refused(refusal) => push_refused(out, script_refusal_text(*refusal)),
    }
}

/// Appends what a service answers as a line.
#[inline(always)]
fn push_service_reply(out: &mut Vec<u8>, reply: &ServiceReply) -> Result<(), AllocError>
    ensures written { OnOk result (out.new.items
        ≡ out.old.items ++ as_line (service_text reply.now)) }
    ensures unchanged { OnErr result (out.new.items ≡ out.old.items) }
{
    match reply {
        Reply::Node(number) => push_numbered(out, b"node", *number),
        Reply::Client(number) => push_numbered(out, b"client", *number),
        Reply::Server(number) => push_numbered(out, b"server", *number),
        Reply::Handle(number) => push_handle(out, *number),
        Reply::Sent(count) => push_numbered(out, b"sent", *count),
        Reply::Done => push_done(out),
        Reply::Nothing => push_nothing(out),
        Reply::Words(words) => push_words(out, words.as_slice()),
        Reply::Answer(told) => push_answer(out, *told),
        Reply::Listed(numbers) => push_list(out, numbers.as_slice()),
        Reply::Refused(refusal) => push_refused(out, refusal_text(*refusal)),
    }
}

/// Appends a name and a number as a line.
#[inline(never)]
fn push_numbered(out: &mut Vec<u8>, name: &[u8], number: u64) -> Result<(), AllocError>
    ensures written { OnOk result (out.new.items
        ≡ out.old.items ++ as_line (name.now ++ spaced number)) }
    ensures unchanged { OnErr result (out.new.items ≡ out.old.items) }
{
    let start = out.len();
    let written = push_named(out, name, number);
    end_line(out, start, written)
}

/// The same of a handle, whose name is known here.
#[inline(never)]
fn push_handle(out: &mut Vec<u8>, number: u64) -> Result<(), AllocError>
    ensures written { OnOk result (out.new.items
        ≡ out.old.items ++ as_line (codes "handle" ++ spaced number)) }
    ensures unchanged { OnErr result (out.new.items ≡ out.old.items) }
{
    let start = out.len();
    let written = push_named(out, b"handle", number);
    end_line(out, start, written)
}

/// Appends the words of a message as a line.
#[inline(never)]
fn push_words(out: &mut Vec<u8>, words: &[u64]) -> Result<(), AllocError>
    ensures written { OnOk result (out.new.items
        ≡ out.old.items ++ as_line (codes "words" ++ flat_map spaced words.now)) }
    ensures unchanged { OnErr result (out.new.items ≡ out.old.items) }
{
    let start = out.len();
    let written = push_listed(out, b"words", words);
    end_line(out, start, written)
}

/// Appends a list of numbers as a line.
#[inline(never)]
fn push_list(out: &mut Vec<u8>, numbers: &[u64]) -> Result<(), AllocError>
    ensures written { OnOk result (out.new.items
        ≡ out.old.items ++ as_line (codes "list" ++ flat_map spaced numbers.now)) }
    ensures unchanged { OnErr result (out.new.items ≡ out.old.items) }
{
    let start = out.len();
    let written = push_listed(out, b"list", numbers);
    end_line(out, start, written)
}

#[inline(never)]
fn push_done(out: &mut Vec<u8>) -> Result<(), AllocError>
    ensures written { OnOk result (out.new.items ≡ out.old.items ++ as_line (codes "ok")) }
    ensures unchanged { OnErr result (out.new.items ≡ out.old.items) }
{
    out.extend_from_slice(b"ok\n")
}

#[inline(never)]
fn push_nothing(out: &mut Vec<u8>) -> Result<(), AllocError>
    ensures written { OnOk result (out.new.items ≡ out.old.items ++ as_line (codes "none")) }
    ensures unchanged { OnErr result (out.new.items ≡ out.old.items) }
{
    out.extend_from_slice(b"none\n")
}

/// Appends the answer to a question as a line.
#[inline(never)]
fn push_answer(out: &mut Vec<u8>, told: bool) -> Result<(), AllocError>
    ensures written { OnOk result (out.new.items
        ≡ out.old.items ++ as_line (service_text (Answer told))) }
    ensures unchanged { OnErr result (out.new.items ≡ out.old.items) }
{
    if told {
        return out.extend_from_slice(b"true\n");
    }
    out.extend_from_slice(b"false\n")
}

/// Appends a refusal as a line.
#[inline(never)]
fn push_refused(out: &mut Vec<u8>, name: &str) -> Result<(), AllocError>
    ensures written { OnOk result (out.new.items
        ≡ out.old.items ++ as_line (codes "refused " ++ name.now)) }
    ensures unchanged { OnErr result (out.new.items ≡ out.old.items) }
{
    let start = out.len();
    let written = push_refused_text(out, name);
    end_line(out, start, written)
}

/// Appends the answer to a line that is no command, by the line's number. Where there is no memory,
/// `out` is unchanged.
pub fn push_bad_line(out: &mut Vec<u8>, number: u64, cause: LineCause) -> Result<(), AllocError>
    ensures written { OnOk result
        (out.new.items ≡ out.old.items ++ as_line (bad_line_text number cause)) }
    ensures unchanged { OnErr result (out.new.items ≡ out.old.items) }
{
    let start = out.len();
    let written = push_bad_line_text(out, number, cause);
    end_line(out, start, written)
}

/// Appends the line feed behind a text that was written from `start` on, or takes back what stands
/// there of it.
#[inline(always)]
fn end_line(
    out: &mut Vec<u8>,
    start: usize,
    written: Result<(), AllocError>,
) -> Result<(), AllocError>
    ensures ended { OnOk result (IsOk written × (out.new.items ≡ as_line out.old.items)) }
    ensures taken_back { OnErr result (out.new.items ≡ take start out.old.items) }
{
    let ended = match written {
        Ok(()) => out.extend_from_slice(b"\n"),
        Err(error) => Err(error),
    };
    if ended.is_err() {
        out.truncate(start);
    }
    ended
}

fn push_bad_line_text(out: &mut Vec<u8>, number: u64, cause: LineCause) -> Result<(), AllocError>
    ensures written { OnOk result (out.new.items ≡ out.old.items ++ bad_line_text number cause) }
    ensures begun { take (length out.old.items) out.new.items ≡ out.old.items }
{
    push_named(out, b"bad line", number)?;
    out.extend_from_slice(b": ")?;
    out.extend_from_slice(cause_text(cause).as_bytes())
}

fn push_refused_text(out: &mut Vec<u8>, name: &str) -> Result<(), AllocError>
    ensures written { OnOk result (out.new.items
        ≡ out.old.items ++ (codes "refused " ++ name.now)) }
    ensures begun { take (length out.old.items) out.new.items ≡ out.old.items }
{
    out.extend_from_slice(b"refused ")?;
    out.extend_from_slice(name.as_bytes())
}

#[inline(always)]
fn push_listed(out: &mut Vec<u8>, name: &[u8], numbers: &[u64]) -> Result<(), AllocError>
    ensures written { OnOk result
        (out.new.items ≡ out.old.items ++ (name.now ++ flat_map spaced numbers.now)) }
    ensures begun { take (length out.old.items) out.new.items ≡ out.old.items }
{
    out.extend_from_slice(name)?;
    for number in numbers {
        push_spaced(out, *number)?;
    }
    Ok(())
}

#[inline(always)]
fn push_named(out: &mut Vec<u8>, name: &[u8], number: u64) -> Result<(), AllocError>
    ensures written { OnOk result (out.new.items ≡ out.old.items ++ (name.now ++ spaced number)) }
    ensures begun { take (length out.old.items) out.new.items ≡ out.old.items }
{
    out.extend_from_slice(name)?;
    push_spaced(out, number)
}

/// The byte of a digit.
#[inline(always)]
fn digit(value: u64) -> u8
    requires { value < 10 }
    ensures { result ≡ 48 + value }
{
    b'0' + value as u8
}

/// Appends a space and a number.
#[inline(always)]
fn push_spaced(out: &mut Vec<u8>, number: u64) -> Result<(), AllocError>
    ensures written { OnOk result (out.new.items ≡ out.old.items ++ spaced number) }
    ensures begun { take (length out.old.items) out.new.items ≡ out.old.items }
{
    if number < 10 {
        return out.extend_from_slice(&[b' ', digit(number)]);
    }
    let tens = number / 10;
    let ones = digit(number % 10);
    if tens < 10 {
        return out.extend_from_slice(&[b' ', digit(tens), ones]);
    }
    if tens < 100 {
        return out.extend_from_slice(&[b' ', digit(tens / 10), digit(tens % 10), ones]);
    }
    push_long(out, number)
}

/// The same of any number, at a greater cost.
#[inline(never)]
fn push_long(out: &mut Vec<u8>, number: u64) -> Result<(), AllocError>
    ensures written { OnOk result (out.new.items ≡ out.old.items ++ spaced number) }
    ensures begun { take (length out.old.items) out.new.items ≡ out.old.items }
{
    out.push(b' ')?;
    let mut digits = Buffer::new();
    out.extend_from_slice(digits.format(number).as_bytes())
}

impl fmt::Display for LineCause {
    ghost use Rattle.std.specs.Prelude.{Some};

    ghost output = { λ cause. Some (cause_text cause) };

    fn fmt<W: fmt::Write>(&self, f: &mut fmt::Formatter<W>) -> fmt::Result {
        f.write_str(cause_text(*self))
    }
}

fn cause_text(cause: LineCause) -> &'static str
    ensures { result.now ≡ cause_text cause }
{
    match cause {
        LineCause::TooLong => "too long",
        LineCause::UnknownCommand => "unknown command",
        LineCause::WrongCount => "wrong count",
        LineCause::BadNumber => "bad number",
        LineCause::BadText => "bad text",
    }
}

/// The name of a refusal of the script's rules.
fn script_refusal_text(refusal: ScriptRefusal) -> &'static str
    ensures { result.now ≡ script_refusal_text refusal }
{
    match refusal {
        ScriptRefusal::ServiceExists => "ServiceExists",
        ScriptRefusal::NoService => "NoService",
        ScriptRefusal::ExceedsMaximumLength => "ExceedsMaximumLength",
        ScriptRefusal::InvalidContent => "InvalidContent",
    }
}

/// The name of a service's refusal.
fn refusal_text(refusal: ServiceRefusal) -> &'static str
    ensures { result.now ≡ refusal_text refusal }
{
    match refusal {
        Refusal::UnknownNode => "UnknownNode",
        Refusal::NodeIsDead => "NodeIsDead",
        Refusal::NodeIsAlive => "NodeIsAlive",
        Refusal::UnknownNumber => "UnknownNumber",
        Refusal::ForeignNumber => "ForeignNumber",
        Refusal::WrongKind => "WrongKind",
        Refusal::CallsSpent => "CallsSpent",
        Refusal::WrongLength => "WrongLength",
        Refusal::ExceedsMaxLoanSize => "ExceedsMaxLoanSize",
        Refusal::ExceedsMaxLoans => "ExceedsMaxLoans",
        Refusal::OutOfMemory => "OutOfMemory",
        Refusal::WantOfMemory => "WantOfMemory",
        Refusal::ExceedsMaxActiveRequests => "ExceedsMaxActiveRequests",
        Refusal::UnableToDeliver => "UnableToDeliver",
        Refusal::ExceedsMaxBorrows => "ExceedsMaxBorrows",
        Refusal::UnableToCreatePortTag => "UnableToCreatePortTag",
        Refusal::UnableToCreateDataSegment => "UnableToCreateDataSegment",
        Refusal::ExceedsMaxSupportedClients => "ExceedsMaxSupportedClients",
        Refusal::ExceedsMaxSupportedServers => "ExceedsMaxSupportedServers",
        Refusal::MarkedForDestruction => "MarkedForDestruction",
        Refusal::InvalidNodeId => "InvalidNodeId",
        Refusal::NodeIdInUse => "NodeIdInUse",
        Refusal::IncompatibleRequestTypes => "IncompatibleRequestTypes",
        Refusal::IncompatibleResponseTypes => "IncompatibleResponseTypes",
        Refusal::IncompatibleAttributes(cause) => match cause {},
        Refusal::LimitTooLarge => "LimitTooLarge",
        Refusal::ExceedsMaxNumberOfNodes => "ExceedsMaxNumberOfNodes",
        Refusal::HasPorts => "HasPorts",
        Refusal::MessagesUnderWay => "MessagesUnderWay",
        Refusal::GrowingStrategy => "GrowingStrategy",
        Refusal::HandlerSet => "HandlerSet",
        Refusal::UnsuitableAlignment => "UnsuitableAlignment",
        Refusal::TooManyWords => "TooManyWords",
        Refusal::Busy => "Busy",
        Refusal::AtRest => "AtRest",
        Refusal::AccessesSpent => "AccessesSpent",
        Refusal::NotOnThreads => "NotOnThreads",
    }
}
