//! A run of the replay over given streams: a reader, two writers, and how the run ends.
use crate::{ReplayStatus, replay_main};
use std::io::{Read, Write};
use std::rt::Env;
use stk_base::{Status, write_all};
use stk_real::{RealSink, RealSource, command_words};

/// Replays what comes from `input`: a script up to its line `end`, and its source behind that. The text of the
/// execution goes to `output`, and what failed is told on `errors`. The answer is that of the top call; it is
/// `BadWords` also where a word isn't UTF-8, and `NoMemory` may come before anything is read.
pub fn run_replay<R: Env + AllocGlobal, I: Read + Drop, O: Write + Drop, E: Write + Drop>(
    rt: &R,
    input: I,
    output: O,
    errors: E,
) -> ReplayStatus {
    let mut source = RealSource::new(input);
    let mut out = RealSink::new(output);
    let mut fault = RealSink::new(errors);
    match command_words(rt) {
        Ok(words) => replay_main(
            rt.alloc(),
            words.as_slice(),
            &mut source,
            &mut out,
            &mut fault,
        ),
        Err(Status::BadWords) => {
            let _ = write_all(&mut fault, b"stack: bad words\n");
            ReplayStatus::BadWords
        }
        Err(_) => ReplayStatus::NoMemory,
    }
}
