// Answers of the outside.
ghost use Rattle.std.specs.Prelude.{◌≡◌, ℕ, List, MatchOption, IfOk, codes};
ghost use Rattle.stk_memory.specs.declared.image.Reply.{Reply as Named};
ghost use Rattle.stk_replay_script.specs.Scripts.{reply_text, IsReply};
ghost use Rattle.stk_replay_script.specs.Fields.{IsReplyText, AreFields};

use crate::cells::cells_in;
use crate::fields::field;
use crate::numbers::signed_number_in;
use std::alloc::Global;
use stk_base::{List, NoMemory};
use stk_line_reading::cut_at;
use stk_memory::Reply;

/// The answer that a text is: a number and the addresses and bytes behind it, each behind a space. `None` exactly where
/// it is no such text.
fn reply_in(alloc: Global, text: &[u8]) -> Result<Option<Reply>, NoMemory>
    ensures { IfOk result (λ reply. MatchOption reply ((r : Named) → IsReplyText text.now r → ⊥) (IsReplyText text.now)) }
{
    let Some(content) = text.strip_prefix(b" ".as_slice()) else {
        return Ok(None);
    };
    let (word, behind) = cut_at(content, b' ');
    let Some(number) = signed_number_in(word) else {
        return Ok(None);
    };
    let Some(writes) = cells_in(alloc, behind)? else {
        return Ok(None);
    };
    Ok(Some(Reply { number, writes }))
}

/// The answers of the lines `reply N A B ..` that a text begins with, and what comes behind them; `None` exactly where
/// one of these lines is none.
pub(crate) fn reply_lines(
    alloc: Global,
    text: &[u8],
) -> Result<Option<(List<Reply>, &[u8])>, NoMemory>
    ensures { IfOk result (λ read. MatchOption read ((rs : List Named) (behind : List ℕ) → AreFields (codes "reply") reply_text IsReply text.now rs behind → ⊥) (λ p. AreFields (codes "reply") reply_text IsReply text.now p.0 p.1.now)) }
{
    let mut replies = Vec::new(alloc);
    let mut left = text;
    while let Some((content, behind)) = field(left, b"reply") {
        let Some(reply) = reply_in(alloc, content)? else {
            return Ok(None);
        };
        replies.push(reply)?;
        left = behind;
    }
    Ok(Some((List::from_vec(replies), left)))
}
