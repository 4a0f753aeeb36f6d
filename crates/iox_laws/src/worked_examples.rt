//! Worked runs and weaves: commands with the replies that the definitions allow.
//! The functions have nothing to do: each is there for its contract.
ghost use Rattle.iox_laws.specs.WorkedExamples.Examples.{IsWorked};
ghost use Rattle.iox_laws.specs.WorkedExamples.WorkedRuns.{responds_in_order, evicts_the_oldest, keeps_the_active_limit, refuses_a_full_server};
ghost use Rattle.iox_laws.specs.WorkedExamples.WorkedRuns.{RaisesLimits, RefusesIds, RefusesLimits};
ghost use Rattle.iox_laws.specs.WorkedExamples.WorkedRuns.{asks_and_hints, grows_as_its_maker_says, grows_as_the_service_says};
ghost use Rattle.iox_laws.specs.WorkedExamples.WorkedRuns.{discards_for_a_full_server, cleans_up_the_dead, keeps_the_borrow_limit, skips_a_stale_request};
ghost use Rattle.iox_laws.specs.WorkedExamples.ExpiredRuns.{expires_two, expires_one, expires_none};
ghost use Rattle.iox_laws.specs.WorkedExamples.WorkedSteps.{FillsALoan, ReleasesAWrittenLoan};
ghost use Rattle.iox_laws.specs.WorkedExamples.WorkedWeaves.{RefusesGrowingPorts, StopsAndIsForgotten};
ghost use Rattle.iox_laws.specs.WorkedExamples.EvictionWeaves.{KeepsTwo};

/// Requests, responses, limits, a full server, a dead node, messages that grow, hints.
pub fn runs()
    ensures in_order { IsWorked responds_in_order }
    ensures evicted { IsWorked evicts_the_oldest }
    ensures active_limit { IsWorked keeps_the_active_limit }
    ensures undeliverable { IsWorked refuses_a_full_server }
    ensures discarded { IsWorked discards_for_a_full_server }
    ensures cleaned_up { IsWorked cleans_up_the_dead }
    ensures borrow_limit { IsWorked keeps_the_borrow_limit }
    ensures stale { IsWorked skips_a_stale_request }
    ensures grows { IsWorked grows_as_the_service_says }
    ensures grows_by_option { IsWorked grows_as_its_maker_says }
    ensures asked { IsWorked asks_and_hints }
{}

/// Creations: limits of 0 are raised, too large ones and ids that are none refused.
pub fn creations()
    ensures raised { RaisesLimits }
    ensures limits { RefusesLimits }
    ensures ids { RefusesIds }
{}

/// Pairs whose servers are gone.
pub fn expired_runs()
    ensures two { IsWorked expires_two }
    ensures one { IsWorked expires_one }
    ensures none { IsWorked expires_none }
{}

/// Wires: a node that stops and is forgotten, what is outstanding at the limits, and a refused
/// opening.
pub fn weaves()
    ensures stopped { StopsAndIsForgotten }
    ensures outstanding { KeepsTwo }
    ensures growing { RefusesGrowingPorts }
{}

/// Loans that their holders fill, and a value that is released once a command wrote its loan.
pub fn histories()
    ensures filled { FillsALoan }
    ensures released { ReleasesAWrittenLoan }
{}
