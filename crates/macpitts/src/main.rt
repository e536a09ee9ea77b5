//! The program: the real files, the real output, and the exit status.
#![tactic(auto)]

use std::process::ExitCode;
use std::{env, io};
use system_run::{exit_status, perform};

fn main(rt: HostRuntime) -> ExitCode {
    let status = perform(rt.alloc(), &rt, io::writer(&rt), env::args(&rt));
    ExitCode::from(exit_status(status))
}
