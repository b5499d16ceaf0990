//! The program `linetool`: prints what the line programs of a `.debug_line` section hold.
#![tactic(auto)]

use linetool_commands::start;
use std::process::ExitCode;

fn main(rt: HostRuntime) -> ExitCode {
    ExitCode::from(start(rt.alloc(), &rt, rt.stdout(), &mut rt.stderr()))
}
