//! A run of the checker over given streams: the words of the command line, a reader, two writers, and how the run ends.
use crate::lint::lint_main;
use std::io::{LineWriter, Read, Write};
use std::rt::Env;
use stk_base::{Sink, Status, write_all};
use stk_query::Cdcl;
use stk_real::{RealSink, RealSource, command_words};

/// Runs the checker on the words of the command line: C comes from `input`, each record goes to `output` as soon as its
/// line is whole, and what failed is told on `errors`. The answer is that of the top call; it is `BadWords` also where
/// a word isn't UTF-8, and `NoMemory` may come before anything is read. What was written before `NoMemory` is flushed.
pub fn run_checker<R: Env + AllocGlobal, I: Read + Drop, O: Write + Drop, E: Write + Drop>(
    rt: &R,
    input: I,
    output: O,
    errors: E,
) -> Status {
    let Ok(writer) = LineWriter::new(rt.alloc(), output) else {
        return Status::NoMemory;
    };
    let mut source = RealSource::new(input);
    let mut out = RealSink::new(writer);
    let mut fault = RealSink::new(errors);
    let mut decider = Cdcl::new(rt.alloc());
    let status = match command_words(rt) {
        Ok(words) => lint_main(
            rt.alloc(),
            words.as_slice(),
            &mut source,
            &mut out,
            &mut fault,
            &mut decider,
        ),
        Err(Status::BadWords) => {
            let _ = write_all(&mut fault, b"stack: bad words\n");
            Status::BadWords
        }
        Err(status) => status,
    };
    if matches!(status, Status::NoMemory) {
        let _ = out.flush();
    }
    status
}
