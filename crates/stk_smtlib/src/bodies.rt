// The terms that operators are, by the names of their arguments.
ghost use Rattle.std.specs.Prelude.{◌≡◌, ◌++◌, IfOk};
ghost use Rattle.stk_terms.specs.Terms.{nth};
ghost use Rattle.stk_smtlib.specs.Written.{body_text};

use crate::pieces::{
    add_choice, add_cut, add_input, add_joined, add_literal, add_one, add_quotient, add_truth,
    add_two, add_widened,
};
use stk_base::NoMemory;
use stk_scripts::{BinaryOp, ExtendOp, TestOp, UnaryOp};
use stk_terms::{TermId, TermOp};

/// An argument by its place among the arguments, and the first term where there is none.
pub(crate) fn argument(args: &[TermId], place: usize) -> TermId
    ensures { result.0 ≡ nth args.now place }
{
    match args.get(place) {
        Some(id) => *id,
        None => TermId(0),
    }
}

/// Adds the term of an operator, whose first argument has this width.
pub(crate) fn add_body(
    text: &mut Vec<u8>,
    op: TermOp,
    width: u8,
    args: &[TermId],
) -> Result<(), NoMemory>
    ensures { IfOk result (λ _. text.new.items ≡ text.old.items ++ body_text op width (nth args.now 0) (nth args.now 1) (nth args.now 2)) }
{
    let a = argument(args, 0);
    let b = argument(args, 1);
    match op {
        TermOp::Constant(w, number) => add_literal(text, w, number),
        TermOp::Input(key) => add_input(text, u64::from(key)),
        TermOp::Not => add_one(text, UnaryOp::Not, a),
        TermOp::Neg => add_one(text, UnaryOp::Neg, a),
        TermOp::And => add_two(text, BinaryOp::And, a, b),
        TermOp::Or => add_two(text, BinaryOp::Or, a, b),
        TermOp::Xor => add_two(text, BinaryOp::Xor, a, b),
        TermOp::Add => add_two(text, BinaryOp::Add, a, b),
        TermOp::Sub => add_two(text, BinaryOp::Sub, a, b),
        TermOp::Mul => add_two(text, BinaryOp::Mul, a, b),
        TermOp::UDiv => add_quotient(text, width, a, b),
        TermOp::URem => add_two(text, BinaryOp::URem, a, b),
        TermOp::Shl => add_two(text, BinaryOp::Shl, a, b),
        TermOp::LShr => add_two(text, BinaryOp::LShr, a, b),
        TermOp::AShr => add_two(text, BinaryOp::AShr, a, b),
        TermOp::Eq => add_truth(text, TestOp::Equal, a, b),
        TermOp::ULt => add_truth(text, TestOp::Below, a, b),
        TermOp::SLt => add_truth(text, TestOp::SignedBelow, a, b),
        TermOp::Extract(low, w) => add_cut(
            text,
            (u64::from(low) + u64::from(w)).saturating_sub(1),
            u64::from(low),
            a,
        ),
        TermOp::ZeroExt(w) => {
            add_widened(text, ExtendOp::Zero, u64::from(w.saturating_sub(width)), a)
        }
        TermOp::SignExt(w) => {
            add_widened(text, ExtendOp::Sign, u64::from(w.saturating_sub(width)), a)
        }
        TermOp::Concat => add_joined(text, a, b),
        TermOp::Ite => add_choice(text, a, b, argument(args, 2)),
    }
}
