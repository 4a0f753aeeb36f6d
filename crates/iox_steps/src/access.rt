//! One access to shared words, and parties that ask for one access after another.
ghost use Rattle.std.specs.Prelude.{◌≡◌, ℕ};
ghost use Rattle.iox_steps.specs.declared.access.Access.{Access};
ghost use Rattle.iox_steps.specs.declared.access.Progress.{Progress};

/// What a party does to the words next. It names one word at most, by its place.
#[derive(Clone, Copy)]
pub enum Access {
    /// no word
    Local,
    /// reads the word in this place
    Load(usize),
    /// puts the number in this place
    Store(usize, u64),
    /// the place, the word expected there, and the word that replaces it
    CompareExchange(usize, u64, u64),
    /// adds the number to the word in this place, modulo 2^64
    FetchAdd(usize, u64),
    /// subtracts the number from the word in this place, modulo 2^64
    FetchSub(usize, u64),
    /// sets all bits of the number in the word of this place
    FetchOr(usize, u64),
    /// clears all other bits than the number's in the word of this place
    FetchAnd(usize, u64),
}

/// What a party answers after an access: its call continues, or is done with a reply.
#[derive(Clone, Copy, Debug, PartialEq, Eq)]
pub enum Progress<R> {
    /// the call has more accesses to make
    Going,
    /// the call is over, with this reply
    Done(R),
}

/// Where a program of accesses goes after one: on in the program, or to its end.
#[derive(Clone, Copy)]
pub enum Next<P, R> {
    /// the program continues here
    Goes(P),
    /// the program is over, with this result
    Ends(R),
}

/// One who makes accesses, one after another. An `Access` has one place, so that each access names
/// one word at most.
pub trait Party {
    /// what a call of it answers
    type Reply: Copy;

    /// the access that it makes next
    ghost asks: { Self → Access };

    /// where it may be after its access found this word, and what it answers
    ghost leads: { Self → ℕ → Progress Self.Reply → Self → Type 0 };

    /// The access that the party makes next.
    fn access(&self) -> Access
        ensures { result ≡ asks self.now };

    /// Takes what the access found: the word as it was before, and 0 where no word was named.
    fn advance(&mut self, seen: u64) -> Progress<Self::Reply>
        ensures { leads self.old seen result self.new };
}
