// Pieces of each size, failing calls at each place, and limits reached and passed.
use crate::{Boxed, List, MemSink, MemSource, ReadAll, Sink, read_all, write_all};
use std::test::Fail;

const BYTES: &[u8] = b"abcdefg";

#[test]
fn reads_to_the_end(rt: HostRuntime) -> Result<(), Fail> {
    let table: [(usize, u64, u32, Result<(), ReadAll>); 14] = [
        // the size of pieces, the failing call, the limit, the answer
        (1, 99, 7, Ok(())),
        (3, 99, 7, Ok(())),
        (100, 99, 8, Ok(())),
        (100, 99, 7, Ok(())),
        (1, 99, 6, Err(ReadAll::TooLarge)),
        (3, 99, 6, Err(ReadAll::TooLarge)),
        (100, 99, 6, Err(ReadAll::TooLarge)),
        (1, 99, 0, Err(ReadAll::TooLarge)),
        (3, 0, 7, Err(ReadAll::ReadFault)),
        (3, 2, 7, Err(ReadAll::ReadFault)),
        (3, 3, 7, Err(ReadAll::ReadFault)),
        (3, 4, 7, Ok(())),
        (3, 2, 6, Err(ReadAll::ReadFault)),
        (3, 3, 6, Err(ReadAll::TooLarge)),
    ];
    for (most, failing, limit, answer) in table {
        assert!(rt; most > 0);
        let bytes = BYTES.to_vec(rt.alloc())?;
        let failing = vec![in rt.alloc(); failing]?;
        let mut source = MemSource::new(bytes, most, failing);
        let got = read_all(rt.alloc(), &mut source, u64::from(limit));
        match got {
            Ok(all) => assert!(rt; answer == Ok(()) && all.as_slice() == BYTES),
            Err(error) => assert_eq!(rt; Err(error), answer, "{most} {limit}"),
        }
    }
    Ok(())
}

#[test]
fn writes_until_a_call_fails(rt: HostRuntime) -> Result<(), Fail> {
    // the size of pieces, the failing call, how many bytes are taken, whether the flush behind them fails
    let table = [
        (1, 99, 7, false),
        (3, 99, 7, false),
        (100, 99, 7, false),
        (3, 0, 0, false),
        (3, 1, 3, false),
        (3, 2, 6, false),
        (3, 3, 7, true),
    ];
    for (most, failing, taken, flush_fails) in table {
        assert!(rt; most > 0);
        let failing = vec![in rt.alloc(); failing]?;
        let mut sink = MemSink::new(rt.alloc(), most, failing);
        let written = write_all(&mut sink, BYTES);
        assert_eq!(rt; written.is_ok(), taken == 7, "{most} {taken}");
        assert!(rt; sink.bytes() == &BYTES[..taken], "{most} {taken}");
        assert_eq!(rt; sink.flush().is_err(), flush_fails, "{most} {taken}");
    }
    Ok(())
}

#[test]
fn lists_and_boxes_hold_bytes(rt: HostRuntime) -> Result<(), Fail> {
    let mut list = List::from_vec(BYTES.to_vec(rt.alloc())?);
    assert_eq!(rt; list.len(), 7);
    list.as_mut_slice().reverse();
    assert!(rt; list.as_slice() == b"gfedcba".as_slice());
    assert!(rt; list == List::from_vec(b"gfedcba".to_vec(rt.alloc())?));
    assert_eq!(rt; list.into_vec().len(), 7);
    assert_eq!(rt; List::<u8>::empty(rt.alloc()).len(), 0);
    let mut boxed = Boxed::new(rt.alloc(), 7u8)?;
    *boxed.get_mut() = 8;
    assert_eq!(rt; *boxed.get(), 8);
    assert!(rt; boxed == Boxed::new(rt.alloc(), 8u8)?);
    assert_eq!(rt; boxed.into_inner(), 8);
    Ok(())
}
