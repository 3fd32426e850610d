use stk_numbers::Condition;

/// An entry of a trace: what a run passes, in the order in which it does.
#[derive(Clone, Copy, Debug, PartialEq, Eq)]
pub enum Entry {
    /// The condition is violated here.
    Ub(Condition),
    /// The run enters this node: a branch of an `if` or of a `?:`, a section of a `switch`, the body of a loop, the
    /// right operand of `&&` or of `||`.
    Enter(u32),
    /// This comparison or controlling expression has this truth; the last part is the truth of the comparison's
    /// replacement, where it has one.
    Seen(u32, bool, Option<bool>),
}
