//! The outside of an execution.

ghost use Rattle.std.specs.Prelude.{◌≡◌, IfOk, Option, ℤ};
ghost use Rattle.stk_replaying.specs.Outsides.{outside_of, Takes, TakesNumber};

use stk_base::NoMemory;
use stk_memory::{Bytes, Reply};

/// The memory of an execution, and the replies that are left.
#[derive(Drop)]
pub(crate) struct OutsideLeft<'a> {
    pub memory: Bytes,
    pub replies: &'a [Reply],
}

impl<'a> OutsideLeft<'a> {
    /// Takes the next reply: its bytes are written, and its number is the answer; none where no reply is left.
    pub fn take(&mut self) -> Result<Option<i128>, NoMemory>
        ensures { IfOk result (λ number. Takes number (outside_of self.old) (outside_of self.new)) }
    {
        let Some((reply, behind)) = self.replies.split_first() else {
            return Ok(None);
        };
        self.memory.put_all(reply.writes.as_slice())?;
        self.replies = behind;
        Ok(Some(reply.number))
    }

    /// Takes the next reply for its number alone; none where no reply is left.
    pub fn take_number(&mut self) -> Option<i128>
        ensures { TakesNumber result (outside_of self.old) (outside_of self.new) }
    {
        let Some((reply, behind)) = self.replies.split_first() else {
            return None;
        };
        self.replies = behind;
        Some(reply.number)
    }
}
