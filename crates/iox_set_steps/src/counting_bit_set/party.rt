//! A party at counts: one access after another.
ghost use Rattle.iox_set_steps.specs.CountPlays.{counts_ask, counts_happen, counts_rest, CountsLead, CountsBegin, CountsHold};
ghost use Rattle.iox_set_steps.specs.CountLaws.{counts_stay_in, counts_keep, counts_start};

use super::{CountCall, CountEvent, CountProgram, CountReply, CountSite};
use iox_steps::{Access, MachineError, MachineParty, Next, Party, Progress};

/// A party at the counts of a site.
#[derive(Clone, Copy)]
pub struct CountParty {
    /// where the counts stand
    pub site: CountSite,
    /// where it is in its call
    pub program: CountProgram,
}

impl CountProgram {
    ghost use Rattle.std.specs.Prelude.{◌≡◌};
    ghost use Rattle.iox_set_steps.specs.CountPrograms.{adds_to, count_access, count_event, count_next, count_start, taken_behind};

    /// Continues by adding one to the count, unless it is the greatest.
    #[inline]
    fn adds_to(id: usize, count: u64) -> Next<CountProgram, CountReply>
        ensures { result ≡ adds_to id count }
    {
        if count == u64::MAX {
            Next::Ends(CountReply::Set(false))
        } else {
            Next::Goes(CountProgram::Exchanges(id, count))
        }
    }

    /// Continues at the next count, if there is one.
    #[inline]
    fn taken_behind(site: CountSite, id: usize) -> Next<CountProgram, CountReply>
        ensures { result ≡ taken_behind site id }
    {
        let behind = id.saturating_add(1);
        if behind < site.capacity {
            Next::Goes(CountProgram::Takes(behind))
        } else {
            Next::Ends(CountReply::ResetAll)
        }
    }

    /// The access that comes next.
    #[inline]
    pub fn access(self, site: CountSite) -> Access
        ensures { result ≡ count_access site self }
    {
        match self {
            CountProgram::AtRest => Access::Local,
            CountProgram::Replies(_) => Access::Local,
            CountProgram::Loads(id) => Access::Load(site.place(id)),
            CountProgram::Exchanges(id, count) => {
                Access::CompareExchange(site.place(id), count, count.saturating_add(1))
            }
            CountProgram::Takes(id) => Access::FetchAnd(site.place(id), 0),
        }
    }

    /// Where the program goes after an access that found `seen`.
    #[inline]
    pub fn next(self, site: CountSite, seen: u64) -> Next<CountProgram, CountReply>
        ensures { result ≡ count_next site self seen }
    {
        match self {
            CountProgram::AtRest => Next::Goes(CountProgram::AtRest),
            CountProgram::Replies(reply) => Next::Ends(reply),
            CountProgram::Loads(id) => CountProgram::adds_to(id, seen),
            CountProgram::Exchanges(_, count) if seen == count => Next::Ends(CountReply::Set(true)),
            CountProgram::Exchanges(id, _) => CountProgram::adds_to(id, seen),
            CountProgram::Takes(id) => CountProgram::taken_behind(site, id),
        }
    }

    /// What an access that found `seen` does to the counts.
    #[inline]
    pub fn event(self, seen: u64) -> Option<CountEvent>
        ensures { result ≡ count_event self seen }
    {
        match self {
            CountProgram::AtRest => None,
            CountProgram::Replies(_) => None,
            CountProgram::Loads(_) => None,
            CountProgram::Exchanges(id, count) if seen == count => Some(CountEvent::Added(id)),
            CountProgram::Exchanges(_, _) => None,
            CountProgram::Takes(_) if seen == 0 => None,
            CountProgram::Takes(id) => Some(CountEvent::Taken(id, seen)),
        }
    }

    /// The program of the call, before its first access.
    #[inline]
    pub fn start(site: CountSite, call: CountCall) -> CountProgram
        ensures { result ≡ count_start site call }
    {
        match call {
            CountCall::Set(id) if id < site.capacity => CountProgram::Loads(id),
            CountCall::Set(_) => CountProgram::Replies(CountReply::Set(false)),
            CountCall::ResetAll if site.capacity == 0 => CountProgram::Replies(
                CountReply::ResetAll,
            ),
            CountCall::ResetAll => CountProgram::Takes(0),
        }
    }
}

impl Party for CountParty {
    type Reply = CountReply;

    ghost asks = { counts_ask };

    ghost leads = { CountsLead };

    #[inline]
    fn access(&self) -> Access {
        self.program.access(self.site)
    }

    #[inline]
    fn advance(&mut self, seen: u64) -> Progress<CountReply> {
        match self.program.next(self.site, seen) {
            Next::Goes(program) => {
                self.program = program;
                Progress::Going
            }
            Next::Ends(reply) => {
                self.program = CountProgram::AtRest;
                Progress::Done(reply)
            }
        }
    }
}

impl MachineParty for CountParty {
    type Call = CountCall;

    type Event = CountEvent;

    ghost Invariant = { CountsHold };

    ghost at_rest = { counts_rest };

    ghost happens = { counts_happen };

    ghost begins = { CountsBegin };

    fn is_at_rest(&self) -> bool {
        matches!(self.program, CountProgram::AtRest)
    }

    fn event(&self, seen: u64) -> Option<CountEvent> {
        self.program.event(seen)
    }

    fn begin(&mut self, call: CountCall) -> Result<(), MachineError> {
        match self.program {
            CountProgram::AtRest => {
                self.program = CountProgram::start(self.site, call);
                Ok(())
            }
            _ => Err(MachineError::Busy),
        }
    }

    ghost stays_in = { counts_stay_in };

    ghost keeps = { counts_keep };

    ghost starts = { counts_start };
}
