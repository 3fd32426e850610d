//! Inputs that name no execution, and how the top call ends where something fails.

use crate::running::{Faults, NONE, replayed, replayed_input};
use std::test::Fail;
use stk_replay::ReplayStatus;

const SOURCE: &str =
    "int t[4]; int g(int);\nint f(unsigned char x) { int y = 10 / x; if (x == 0) return 1; return y; }\nint h(int i) { return t[i]; }\nint f(void) { return 0; }\nint k(void) { return z; }\n";

const SCRIPT: &str = "function f\nstart x=0\nfill 0\nturns 10\nend\n";

static BAD: [&str; 16] = [
    // no script comes
    "",
    "function f\nstart x=0\nfill 0\nturns 10\n",
    "function f\nstart x=0\nfill 00\nturns 10\nend\n",
    "function f\nstart x=0\nfill 256\nturns 10\nend\n",
    "function f\nstart x=0\nfill 0\nturns 4294967296\nend\n",
    "function f\nstart x=0\nfill 0\nturns 10\nreply 1\nend\n",
    // no accepted function has this name
    "function e\nstart x=0\nfill 0\nturns 10\nend\n",
    "function g\nstart none\nfill 0\nturns 10\nend\n",
    "function k\nstart none\nfill 0\nturns 10\nend\n",
    // the start isn't one of the function's keys
    "function f\nstart y=0\nfill 0\nturns 10\nend\n",
    "function f\nstart x=256\nfill 0\nturns 10\nend\n",
    "function f\nstart x=0 x=0\nfill 0\nturns 10\nend\n",
    "function f\nstart none\nfill 0\nturns 10\nend\n",
    // an object that doesn't fit at its address
    "function h\nstart i=0 &t=18446744073709551612 load@3:23=0\nfill 0\nturns 10\nend\n",
    // an address twice
    "function f\nstart x=0\nfill 0\nbyte 8 1\nbyte 8 1\nturns 10\nend\n",
    "function f\nstart x=0\nfill 0\nbyte 8 1\nbyte 9 1\nbyte 8 2\nturns 10\nend\n",
];

#[test]
fn bad_scripts_are_refused(rt: HostRuntime) -> Result<(), Fail> {
    for script in &BAD {
        let run = replayed(rt.alloc(), &[], script, SOURCE, NONE)?;
        assert!(rt; run.status == ReplayStatus::BadScript, "{:?}", script);
        assert!(rt; run.text.is_empty(), "{:?}", script);
        assert!(rt;
            run.told.as_slice() == b"stack: bad script\n".as_slice(),
            "{:?}",
            script
        );
    }
    Ok(())
}

#[test]
fn the_first_definition_of_a_name_is_run(rt: HostRuntime) -> Result<(), Fail> {
    let run = replayed(rt.alloc(), &[], SCRIPT, SOURCE, NONE)?;
    assert!(rt; run.status == ReplayStatus::Done);
    assert!(rt; run.status.code() == 0);
    Ok(())
}

#[test]
fn words_and_failing_streams_are_told(rt: HostRuntime) -> Result<(), Fail> {
    let run = replayed(rt.alloc(), &["--help"], SCRIPT, SOURCE, NONE)?;
    assert!(rt; run.status == ReplayStatus::BadWords && run.status.code() == 3);
    assert!(rt; run.told.as_slice() == b"stack: bad words\n".as_slice());
    let unread = Faults {
        source: &[0],
        output: &[],
        fault: &[],
    };
    let run = replayed(rt.alloc(), &[], SCRIPT, SOURCE, unread)?;
    assert!(rt; run.status == ReplayStatus::ReadFault && run.status.code() == 4);
    assert!(rt; run.told.as_slice() == b"stack: the input cannot be read\n".as_slice());
    let unwritten = Faults {
        source: &[],
        output: &[0],
        fault: &[],
    };
    let run = replayed(rt.alloc(), &[], SCRIPT, SOURCE, unwritten)?;
    assert!(rt; run.status == ReplayStatus::WriteFault && run.status.code() == 5);
    assert!(rt; run.told.as_slice() == b"stack: the output cannot be written\n".as_slice());
    let untold = Faults {
        source: &[0],
        output: &[],
        fault: &[0],
    };
    let run = replayed(rt.alloc(), &[], SCRIPT, SOURCE, untold)?;
    assert!(rt; run.status == ReplayStatus::ReadFault && run.told.is_empty());
    Ok(())
}

#[test]
fn an_input_over_the_limit_is_too_large(rt: HostRuntime) -> Result<(), Fail> {
    let spaces = vec![in rt.alloc(); b' '; 16_777_217]?;
    let run = replayed_input(rt.alloc(), &[], spaces, NONE)?;
    assert!(rt; run.status == ReplayStatus::TooLarge && run.status.code() == 6);
    assert!(rt; run.text.is_empty());
    let line = b"stack: the input is larger than 16777216 bytes\n";
    assert!(rt; run.told.as_slice() == line.as_slice());
    let fewer = vec![in rt.alloc(); b' '; 16_777_216]?;
    let run = replayed_input(rt.alloc(), &[], fewer, NONE)?;
    assert!(rt; run.status == ReplayStatus::BadScript && run.status.code() == 8);
    Ok(())
}
