//! Callers of a table, proved only from its clauses.
ghost use Rattle.std.specs.Prelude.{◌≡◌, ◌+◌, ◌<◌, ◌≤◌, ◌^◌, IfOk, None, Some, true};
ghost use Rattle.iox_handles.specs.Tables.{handle_at};

use iox_handles::{Entry, Table};
use std::alloc::{AllocError, Global};

/// What is added first is found.
pub fn added_and_found(alloc: Global, entry: Entry) -> Result<Option<Entry>, AllocError>
    requires { entry.number + 1 < 2 ^ 64 }
    ensures { IfOk result (λ found. found ≡ Some entry) }
{
    let mut table = Table::new(alloc, 1)?;
    let place = table.add(entry);
    Ok(table.find(entry.number, place))
}

/// What is removed is found no more, whatever the hint.
pub fn removed_and_not_found(table: &mut Table, number: u64, hint: usize) -> Option<Entry>
    ensures { result ≡ None }
{
    table.remove(number, hint);
    table.find(number, hint)
}

/// A hint that is wrong changes no answer.
pub fn found_with_any_hint(table: &Table, number: u64, hint: usize) -> bool
    ensures { result ≡ true }
{
    table.find(number, hint) == table.find(number, 0)
}

/// A removed handle makes room for another.
pub fn removed_and_added(table: &mut Table, entry: Entry, number: u64) -> Option<usize>
    requires newer { table.old.next ≤ entry.number }
    requires number { entry.number + 1 < 2 ^ 64 }
{
    table.remove(number, 0)?;
    Some(table.add(entry))
}

/// As many handles may come as room is reserved for.
pub fn reserved_and_added(table: &mut Table, entry: Entry) -> Result<usize, AllocError>
    requires newer { table.old.next ≤ entry.number }
    requires number { entry.number + 1 < 2 ^ 64 }
{
    table.reserve(1)?;
    Ok(table.add(entry))
}
