//! How many accesses a copy takes. The function has nothing to do: it is there for its contract.
ghost use Rattle.iox_wire_copies.specs.WorkedCopies.{CopiesTakeNineteen};

/// On a worked wire the copy of one word to one server takes 19 accesses. Refused for the number of
/// pending responses it takes 10, refused at a full server 14, and one step if it is too long. A
/// server that looks at no request state receives the request by 11.
pub fn worked_copies_take_nineteen()
    ensures { CopiesTakeNineteen }
{}
