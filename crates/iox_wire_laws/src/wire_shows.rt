//! After each access of a node the words, the nodes and the machine agree again.
//! The functions have nothing to do: each is there for its contract.
ghost use Rattle.iox_wire_laws.specs.WireShows.EndsShow.{EndsShowTheWorld};
ghost use Rattle.iox_wire_laws.specs.WireShows.Ids.{IdsStaySmall, NewRequestsAreSmall};
ghost use Rattle.iox_wire_laws.specs.WireShows.NextPrograms.{NextProgramsFit};
ghost use Rattle.iox_wire_laws.specs.WireShows.OwnedCalls.{OwnedCallsOwnPlaces, StepsOwnTheNextPlace};
ghost use Rattle.iox_wire_laws.specs.WireShows.OwnedSteps.{OwnedStepsGoOn};
ghost use Rattle.iox_wire_laws.specs.WireShows.StepsShow.{StepsShowTheWorld};

/// After each access the words fit the program of the node's next place.
pub fn next_programs_fit()
    ensures { NextProgramsFit }
{}

/// The ids of the requests that request states name stay small.
pub fn ids_stay_small()
    ensures ids { IdsStaySmall }
    ensures new { NewRequestsAreSmall }
{}

/// Where words and seats show a world, they show the next one after an access of a living node.
pub fn steps_show_the_world()
    ensures { StepsShowTheWorld }
{}

/// So they do after the end of its call.
pub fn ends_show_the_world()
    ensures { EndsShowTheWorld }
{}

/// What the call of a node owns, its place may access, and after an access it owns the next place.
pub fn calls_own_their_places()
    ensures places { OwnedCallsOwnPlaces }
    ensures steps { StepsOwnTheNextPlace }
    ensures shown { OwnedStepsGoOn }
{}
