//! How many messages a port has memory for, chosen by how many are ever needed.
ghost use Rattle.std.specs.Prelude.{◌≡◌};
ghost use Rattle.iox_hub.specs.Making.{IsChosenBy};

use crate::pools::chosen;

/// Chooses how many requests a client has memory for. With fewer than the most that are ever
/// needed, its loans may find none left.
#[derive(Clone, Copy, Drop)]
pub struct PreallocatedRequestsOverride<F> {
    f: F,
}

impl<F: Fn(usize) -> usize> PreallocatedRequestsOverride<F> {
    /// It is chosen by this closure.
    pub fn new(f: F) -> Self
        ensures { result.f ≡ f }
    {
        PreallocatedRequestsOverride { f }
    }

    /// What the closure answers, where so many requests are needed at most.
    pub fn call(&self, requests: usize) -> usize
        requires { F.pre self.now.f requests }
        ensures { F.post self.now.f requests result }
    {
        (self.f)(requests)
    }

    /// The pool that is chosen so: raised to 1, and lowered to the most that are needed.
    pub fn pool(&self, requests: usize) -> usize
        requires { F.pre self.now.f requests }
        ensures { IsChosenBy (F.post self.now.f) requests result }
    {
        chosen(requests, Some(self.call(requests) as u64))
    }
}

/// Chooses how many responses a server has memory for. With fewer than the most that are ever
/// needed, its loans may find none left.
#[derive(Clone, Copy, Drop)]
pub struct PreallocatedResponseOverride<F> {
    f: F,
}

impl<F: Fn(usize) -> usize> PreallocatedResponseOverride<F> {
    /// It is chosen by this closure.
    pub fn new(f: F) -> Self
        ensures { result.f ≡ f }
    {
        PreallocatedResponseOverride { f }
    }

    /// What the closure answers, where so many responses are needed at most.
    pub fn call(&self, responses: usize) -> usize
        requires { F.pre self.now.f responses }
        ensures { F.post self.now.f responses result }
    {
        (self.f)(responses)
    }

    /// The pool that is chosen so: raised to 1, and lowered to the most that are needed.
    pub fn pool(&self, responses: usize) -> usize
        requires { F.pre self.now.f responses }
        ensures { IsChosenBy (F.post self.now.f) responses result }
    {
        chosen(responses, Some(self.call(responses) as u64))
    }
}
