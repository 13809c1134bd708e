//! `paragon`, the runner.
#![tactic(auto)]

use par_words::Which;
use std::process::ExitCode;

fn main(rt: HostRuntime) -> ExitCode {
    par_main::run(&rt, Which::Runner)
}
