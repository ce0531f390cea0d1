//! The program `lt` once more, for a stored run that ends with status 1.
#![tactic(auto)]

use std::process::ExitCode;

fn main(rt: HostRuntime) -> ExitCode {
    lt_main::run(&rt)
}
