//! The words of the command line.
use std::env;
use std::io::ErrorKind;
use std::rt::Env;
use stk_base::Status;

/// The words after the program's name, or how to end where they can't be gathered: `NoMemory`, or `BadWords` where one
/// isn't UTF-8.
pub fn command_words<R: Env + AllocGlobal>(rt: &R) -> Result<Vec<String>, Status> {
    let mut words = Vec::new(rt.alloc());
    let args = match env::args(rt) {
        Ok(args) => args,
        Err(error) if error.kind() == ErrorKind::OutOfMemory => return Err(Status::NoMemory),
        Err(_) => return Err(Status::BadWords),
    };
    let mut is_name = true;
    for arg in args {
        if is_name {
            is_name = false;
        } else if words.push(arg).is_err() {
            return Err(Status::NoMemory);
        }
    }
    Ok(words)
}
