//! The auditor as a program: it reads a bundle and its source on standard input, writes the answer to standard output,
//! and tells of a failure on standard error. The exit status is that of the top call.
#![tactic(auto)]

use std::process::ExitCode;
use stk_audit_main::run_auditor;

fn main(rt: HostRuntime) -> ExitCode {
    let status = run_auditor(&rt, rt.stdin(), rt.stdout(), rt.stderr());
    ExitCode::from(status.code())
}
