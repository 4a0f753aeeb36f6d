//! Plays the script on standard input, and writes the answers to standard output.
#![tactic(auto)]

mod run;
mod status;

use status::status_of;
use std::process::ExitCode;

fn main(rt: HostRuntime) -> ExitCode {
    let mut reader = rt.stdin();
    let mut writer = rt.stdout();
    ExitCode::from(status_of(run::run(rt.alloc(), &mut reader, &mut writer)))
}
