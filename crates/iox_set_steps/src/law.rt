//! What a reply says of its own call, each law for those who call its empty function.
ghost use Rattle.iox_set_steps.specs.AtomicCalls.{RepliesTellOfTheirValues};
ghost use Rattle.iox_set_steps.specs.BitCalls.{RepliesTellOfTheirBits};
ghost use Rattle.iox_set_steps.specs.CountCalls.{RepliesTellOfTheirCounts};

/// Whatever words the accesses of a call find, its reply is true of its own bit. A `set` that
/// answers true set that bit, which was clear. One that answers false found it set, or there is no
/// bit of its number (a plain `BitSet` may not be asked for such a bit). A `reset_next` cleared the
/// bit that it answers, which was set; where it answers none, it found each bit clear. A
/// `reset_all` found each bit clear, or cleared it and handed it out.
pub fn replies_tell_of_their_own_bit()
    ensures { RepliesTellOfTheirBits }
{}

/// Whatever words the accesses of a call find, its reply is true of its own count. A `set` that
/// answers true added one to that count, which was not the greatest. One that answers false found
/// it the greatest, or there is no bit of its number. A `reset_all` handed out each bit's count.
pub fn replies_tell_of_their_own_count()
    ensures { RepliesTellOfTheirCounts }
{}

/// Whatever words the accesses of a call find, its reply is true of its own value. A `store` that
/// answers true made its value current. One that answers false found the last version and changed
/// nothing, as the plain one does. A `load` answers the value that is current at its last access.
pub fn replies_tell_of_their_own_value()
    ensures { RepliesTellOfTheirValues }
{}
