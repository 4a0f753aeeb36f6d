//! Laws of the machine that copies messages: of calls, runs and weaves. Each module is there for
//! the contracts of its functions, which have nothing to do.
#![tactic(auto)]

pub mod call_functions;
pub mod message_laws;
pub mod reply_laws;
pub mod run_laws;
pub mod run_ledger;
pub mod run_pools;
pub mod service_laws;
pub mod weave_beats;
pub mod weave_laws;
pub mod weave_ledger;
pub mod weave_pools;
pub mod weave_worlds;
pub mod worked_examples;
