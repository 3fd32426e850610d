//! The checker as a program: it reads C on standard input, writes records to standard output, and tells of a failure on
//! standard error. The exit status is that of the top call.
#![tactic(auto)]

use std::process::ExitCode;
use stk_lint::run_checker;

fn main(rt: HostRuntime) -> ExitCode {
    let status = run_checker(&rt, rt.stdin(), rt.stdout(), rt.stderr());
    ExitCode::from(status.code())
}
