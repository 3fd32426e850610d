//! Terms of the store for the trees of scripts.

ghost use Rattle.std.specs.Prelude.{◌≡◌, ◌<◌, ℕ, IfOk, List, length};
ghost use Rattle.stk_base.specs.Text.{text_of};
ghost use Rattle.stk_scripts.specs.Syntax.{Expr as Term, named};
ghost use Rattle.stk_terms.specs.Growth.{Keeps};
ghost use Rattle.stk_terms.specs.Values.{width_at};
ghost use Rattle.stk_script_trees.specs.View.{view_expr};
ghost use Rattle.stk_script_reader.specs.Standing.{IsTerm, Known, Makes, Tests};

use crate::names::Names;
use crate::operators;
use stk_base::Span;
use stk_script_trees::{Expr, Fault};
use stk_scripts::TestOp;
use stk_terms::{TermId, Terms};

// What a name stands for.
fn find(bytes: &[u8], names: &Names, terms: &Terms, at: Span) -> Result<TermId, Fault>
    requires known { Known names.now terms.now }
    ensures { Makes names.now terms.now terms.now (named (text_of bytes.now at)) result }
{
    // The contract alone reads the terms.
    let _terms = terms;
    match names.find(at.text(bytes)) {
        Some(id) => Ok(id),
        None => Err(Fault::Bad),
    }
}

// A comparison, behind which the names still stand for terms.
#[tactic(auto, using(crate::proofs::Kept::known_kept))]
fn compared(
    names: &Names,
    terms: &mut Terms,
    op: TestOp,
    a: TermId,
    b: TermId,
) -> Result<TermId, Fault>
    requires known { Known names.now terms.old }
    requires first { a.0 < length terms.old.terms }
    requires second { b.0 < length terms.old.terms }
    ensures made { (list : List (List ℕ × ℕ)) (e f : Term) → IsTerm terms.old list e a.0 → IsTerm terms.old list f b.0 → Tests terms.old terms.new list op e f result }
    ensures keeps { Keeps terms.old terms.new }
    ensures there { IfOk result (λ id. id.0 < length terms.new.terms) }
    ensures one { IfOk result (λ id. width_at terms.new id.0 ≡ 1) }
    ensures still { Known names.now terms.new }
{
    // The contract alone reads the names.
    let _names = names;
    operators::compare(terms, op, a, b)
}

#[tactic(auto, using(crate::proofs::Kept::known_kept, crate::proofs::Kept::keeps_then))]
/// The term of a tree, by what the names so far stand for. `Bad` comes where a name stands for nothing, or parts don't
/// fit.
pub(crate) fn made(
    bytes: &[u8],
    names: &Names,
    terms: &mut Terms,
    tree: &Expr,
) -> Result<TermId, Fault>
    requires known { Known names.now terms.old }
    ensures made { Makes names.now terms.old terms.new (view_expr bytes.now tree.now) result }
    ensures keeps { Keeps terms.old terms.new }
    ensures still { Known names.now terms.new }
{
    match tree {
        Expr::Named(at) => find(bytes, names, terms, *at),
        Expr::Literal(width, number) => operators::number(terms, *width, *number),
        Expr::One(op, a) => {
            let a = made(bytes, names, terms, a.get())?;
            operators::one(terms, *op, a)
        }
        Expr::Two(op, a, b) => {
            let a = made(bytes, names, terms, a.get())?;
            let b = made(bytes, names, terms, b.get())?;
            operators::two(terms, *op, a, b)
        }
        Expr::Joined(a, b) => {
            let a = made(bytes, names, terms, a.get())?;
            let b = made(bytes, names, terms, b.get())?;
            operators::concat(terms, a, b)
        }
        Expr::Cut(high, low, a) => {
            let a = made(bytes, names, terms, a.get())?;
            operators::extract(terms, *high, *low, a)
        }
        Expr::Widened(op, more, a) => {
            let a = made(bytes, names, terms, a.get())?;
            operators::extend(terms, *op, *more, a)
        }
        Expr::Chosen(op, a, b, yes, no) => {
            let a = made(bytes, names, terms, a.get())?;
            let b = made(bytes, names, terms, b.get())?;
            let test = compared(names, terms, *op, a, b)?;
            let yes = made(bytes, names, terms, yes.get())?;
            let no = made(bytes, names, terms, no.get())?;
            operators::choice(terms, test, yes, no)
        }
    }
}
