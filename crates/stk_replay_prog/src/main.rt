//! The replay as a program: it reads a script and its source on standard input, writes the text of the execution to
//! standard output, and tells of a failure on standard error. The exit status is that of the top call.
#![tactic(auto)]

use std::process::ExitCode;
use stk_replay::run_replay;

fn main(rt: HostRuntime) -> ExitCode {
    let status = run_replay(&rt, rt.stdin(), rt.stdout(), rt.stderr());
    ExitCode::from(status.code())
}
