//! Scripts that are read and refused, and starts.

use std::alloc::Global;
use std::process::Abort;
use std::test::Fail;
use stk_base::List;
use stk_replay_script::{read_script, start_numbers};

/// An input with all lines, two cells and two answers.
const INPUT: &[u8] =
    b"function f\nstart n=3 &x=16\nfill 7\nbyte 16 255\nbyte 18446744073709551615 0\nreply -9223372036854775808 1 2 3 4\nreply 18446744073709551615\nturns 4294967295\nend\nint x;";

/// Inputs that are no script: each has one fault.
static BAD: [&[u8]; 22] = [
    b"",
    b"end\n",
    b"start none\nfunction f\nfill 0\nturns 1\nend\n",
    b"function f\nfill 0\nturns 1\nend\n",
    b"function  f\nstart none\nfill\nturns 1\nend\n",
    b"function f\nstart none\nturns 1\nend\n",
    b"function f\nstart none\nfill 256\nturns 1\nend\n",
    b"function f\nstart none\nfill 00\nturns 1\nend\n",
    b"function f\nstart none\nfill 0 \nturns 1\nend\n",
    b"function f\r\nstart none\r\nfill 0\r\nturns 1\r\nend\r\n",
    b"function f\nstart none\nfill 0\nbyte 1\nturns 1\nend\n",
    b"function f\nstart none\nfill 0\nbyte 1 256\nturns 1\nend\n",
    b"function f\nstart none\nfill 0\nbyte 18446744073709551616 0\nturns 1\nend\n",
    b"function f\nstart none\nfill 0\nbyte 1 2 3\nturns 1\nend\n",
    b"function f\nstart none\nfill 0\nreply 0\nbyte 1 2\nturns 1\nend\n",
    b"function f\nstart none\nfill 0\nreply\nturns 1\nend\n",
    b"function f\nstart none\nfill 0\nreply -0\nturns 1\nend\n",
    b"function f\nstart none\nfill 0\nreply +1\nturns 1\nend\n",
    b"function f\nstart none\nfill 0\nreply -9223372036854775809\nturns 1\nend\n",
    b"function f\nstart none\nfill 0\nreply 0 1\nturns 1\nend\n",
    b"function f\nstart none\nfill 0\nturns 4294967296\nend\n",
    b"function f\nstart none\nfill 0\nturns 1\nend \n",
];

#[test]
fn each_line_is_read(rt: HostRuntime) -> Result<(), Fail> {
    let read = read_script(rt.alloc(), INPUT)?;
    let (script, source) = read.ok_or("no script")?;
    assert!(rt; script.function.as_slice() == b"f".as_slice());
    assert!(rt; script.start.as_slice() == b"n=3 &x=16".as_slice());
    assert!(rt; script.memory.fill == 7);
    assert!(rt; script.turns == u32::MAX);
    assert!(rt; source == b"int x;".as_slice());
    let cells = script.memory.cells.as_slice();
    assert!(rt; cells.len() == 2);
    assert!(rt; cells[0].at == 16 && cells[0].byte == 255);
    assert!(rt; cells[1].at == u64::MAX && cells[1].byte == 0);
    let replies = script.replies.as_slice();
    assert!(rt; replies.len() == 2);
    assert!(rt; replies[0].number == -9_223_372_036_854_775_808);
    assert!(rt; replies[1].number == 18_446_744_073_709_551_615);
    assert!(rt; replies[1].writes.len() == 0);
    let writes = replies[0].writes.as_slice();
    assert!(rt; writes.len() == 2);
    assert!(rt; writes[1].at == 3 && writes[1].byte == 4);
    Ok(())
}

#[test]
fn a_source_may_be_empty(rt: HostRuntime) -> Result<(), Fail> {
    for input in [
        b"function f\nstart none\nfill 0\nturns 1\nend\n".as_slice(),
        b"function f\nstart none\nfill 0\nturns 1\nend".as_slice(),
    ] {
        let read = read_script(rt.alloc(), input)?;
        let (script, source) = read.ok_or("no script")?;
        assert!(rt; script.start.as_slice() == b"none".as_slice());
        assert!(rt; script.replies.len() == 0);
        assert!(rt; source.is_empty());
    }
    Ok(())
}

#[test]
fn other_texts_are_no_scripts(rt: HostRuntime) -> Result<(), Fail> {
    for input in &BAD {
        assert!(rt; read_script(rt.alloc(), input)?.is_none());
    }
    Ok(())
}

/// Compares the numbers that a text gives three keys; none where it is no start of these.
fn check(alloc: Global, rt: &impl Abort, text: &[u8], wanted: Option<&[i128]>) -> Result<(), Fail> {
    let mut keys = Vec::new(alloc);
    for key in [b"n".as_slice(), b"loop@1:2.i", b"n"] {
        keys.push(List::from_vec(Vec::from_slice(alloc, key)?))?;
    }
    let read = start_numbers(alloc, text, keys.as_slice())?;
    match wanted {
        Some(wanted) => {
            let numbers = read.ok_or("no start")?;
            assert!(rt; numbers.as_slice() == wanted);
        }
        None => assert!(rt; read.is_none()),
    }
    Ok(())
}

#[test]
fn starts_give_each_key_a_number(rt: HostRuntime) -> Result<(), Fail> {
    let alloc = rt.alloc();
    check(alloc, &rt, b"n=-1 loop@1:2.i=0 n=300", Some(&[-1, 0, 300]))?;
    check(alloc, &rt, b"none", None)?;
    check(alloc, &rt, b"n=-1 loop@1:2.i=0", None)?;
    check(alloc, &rt, b"n=-1 loop@1:2.i=0 n=300 ", None)?;
    check(alloc, &rt, b"n=-1  loop@1:2.i=0 n=300", None)?;
    check(alloc, &rt, b"loop@1:2.i=0 n=-1 n=300", None)?;
    check(alloc, &rt, b"n=-1 loop@1:2.i=0x n=300", None)?;
    let none = start_numbers(alloc, b"none", &[])?.ok_or("no start")?;
    assert!(rt; none.is_empty());
    assert!(rt; start_numbers(alloc, b"", &[])?.is_none());
    Ok(())
}
