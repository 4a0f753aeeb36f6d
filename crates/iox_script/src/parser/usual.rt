//! Lines of the usual forms, read in one pass: the name of a command, and numbers of at most 19
//! digits behind it. Other lines, good ones too, are left to be parsed.
ghost use Rattle.std.specs.Prelude.{◌≡◌, ◌<◌, ◌≤◌, ◌∷◌, [], length, take, true, IfSome};
ghost use Rattle.std.specs.List.{list_all};
ghost use Rattle.iox_model.specs.declared.command.Command.TheVariants.{Port};
ghost use Rattle.iox_model.specs.declared.command.PortCommand.TheVariants as port_commands;
ghost use Rattle.iox_script.specs.Grammar.{meaning, numbers_of};
ghost use Rattle.iox_script.specs.Meanings.{number_and};
ghost use Rattle.iox_script.specs.Lines.{words_of};
ghost use Rattle.iox_script.specs.Numerals.{is_digit, number_of};
ghost use Rattle.iox_script.specs.declared.command.ScriptCommand.TheVariants.{Service};

use super::MAX_LINE;
use crate::payload::Payload;
use std::alloc::Global;

/// A number below this has room for a digit more.
const ROOM: u64 = 1_000_000_000_000_000_000;

/// The number that the first digits write, and how many these are. It ends at what is no digit, or
/// where one more might not fit.
#[inline(always)]
fn first_digits(bytes: &[u8]) -> (u64, usize)
    ensures within { result.1 ≤ length bytes.now }
    ensures digits { list_all is_digit (take result.1 bytes.now) ≡ true }
    ensures number { 0 < result.1 → number_of (take result.1 bytes.now) ≡ Ok result.0 }
{
    let mut number = 0;
    for (at, byte) in bytes.iter().enumerate() {
        if !byte.is_ascii_digit() || number >= ROOM {
            return (number, at);
        }
        number = number * 10 + u64::from(*byte - b'0');
    }
    (number, bytes.len())
}

/// A number, and what stands behind the space that ends it.
#[inline(always)]
fn number_before(bytes: &[u8]) -> Option<(u64, &[u8])>
    ensures numbers { IfSome result (λ found. numbers_of (words_of bytes.now)
        ≡ number_and found.0 (numbers_of (words_of found.1.now))) }
    ensures shorter { IfSome result (λ found. length found.1.now < length bytes.now) }
{
    let (number, digits) = first_digits(bytes);
    if digits == 0 || digits >= bytes.len() || bytes[digits] != b' ' {
        return None;
    }
    Some((number, &bytes[digits + 1..]))
}

/// A number with nothing behind it.
#[inline(always)]
fn last_number(bytes: &[u8]) -> Option<u64>
    ensures { IfSome result (λ number. numbers_of (words_of bytes.now) ≡ Ok (number ∷ [])) }
{
    let (number, digits) = first_digits(bytes);
    if digits == 0 || digits != bytes.len() {
        return None;
    }
    Some(number)
}

/// Two numbers, and nothing else.
#[inline(always)]
fn two_numbers(bytes: &[u8]) -> Option<(u64, u64)>
    ensures { IfSome result (λ two. numbers_of (words_of bytes.now) ≡ Ok (two.0 ∷ two.1 ∷ [])) }
{
    let (first, rest) = number_before(bytes)?;
    let second = last_number(rest)?;
    Some((first, second))
}

/// Numbers, where there is memory for them.
#[inline(always)]
fn all_numbers(alloc: Global, bytes: &[u8]) -> Option<Payload>
    ensures { IfSome result (λ numbers. numbers_of (words_of bytes.now) ≡ Ok numbers) }
{
    let Ok(mut numbers) = Vec::with_capacity(alloc, bytes.len() / 2 + 1) else {
        return None;
    };
    let mut rest = bytes;
    'words: loop {
        let (number, digits) = first_digits(rest);
        if digits == 0 || numbers.push(number).is_err() {
            return None;
        }
        if digits == rest.len() {
            return Some(Payload::new(numbers));
        }
        if rest[digits] != b' ' {
            return None;
        }
        rest = &rest[digits + 1..];
    }
}

/// The numbers of a line `receive NODE NUMBER`.
#[inline(always)]
pub fn receive_line(line: &[u8]) -> Option<(u64, u64)>
    ensures { IfSome result (λ call. meaning line.now
        ≡ Ok (Service (Port (port_commands.Receive call.0 call.1)))) }
{
    if line.len() > MAX_LINE {
        return None;
    }
    two_numbers(line.strip_prefix(b"receive ".as_slice())?)
}

/// The numbers of a line `read NODE HANDLE`.
#[inline(always)]
pub fn read_line(line: &[u8]) -> Option<(u64, u64)>
    ensures { IfSome result (λ call. meaning line.now
        ≡ Ok (Service (Port (port_commands.Read call.0 call.1)))) }
{
    if line.len() > MAX_LINE {
        return None;
    }
    two_numbers(line.strip_prefix(b"read ".as_slice())?)
}

/// The numbers of a line `send-copy NODE NUMBER WORD..`, where there is memory for its words.
#[inline(always)]
pub fn send_copy_line(alloc: Global, line: &[u8]) -> Option<(u64, u64, Payload)>
    ensures { IfSome result (λ call. meaning line.now
        ≡ Ok (Service (Port (port_commands.SendCopy call.0 call.1 call.2)))) }
{
    if line.len() > MAX_LINE {
        return None;
    }
    // Two tests, of which each is one comparison.
    let rest = line.strip_prefix(b"send-cop".as_slice())?;
    let rest = rest.strip_prefix(b"y ".as_slice())?;
    let (node, rest) = number_before(rest)?;
    let (number, rest) = number_before(rest)?;
    let payload = all_numbers(alloc, rest)?;
    Some((node, number, payload))
}
