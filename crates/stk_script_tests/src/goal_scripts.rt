//! Goals and their scripts.

use std::alloc::Global;
use std::process::Abort;
use std::test::Fail;
use stk_base::{List, NoMemory};
use stk_smtlib::script;
use stk_terms::{TermId, TermOp, Terms};

/// A term, by its operator and the places of its arguments.
struct Part {
    op: TermOp,
    args: &'static [TermId],
}

// Whether a sum with 200 is below its part, over an input of 8 bits.
static WRAPPED: [Part; 4] = [
    Part {
        op: TermOp::Input(0),
        args: &[],
    },
    Part {
        op: TermOp::Constant(8, 200),
        args: &[],
    },
    Part {
        op: TermOp::Add,
        args: &[TermId(0), TermId(1)],
    },
    Part {
        op: TermOp::ULt,
        args: &[TermId(2), TermId(0)],
    },
];

/// Its script.
pub(crate) static WRAPPED_SCRIPT: &str =
    "(set-logic QF_BV)\n(declare-fun k0 () (_ BitVec 8))\n(define-fun t0 () (_ BitVec 8) k0)\n(define-fun t1 () (_ BitVec 8) (_ bv200 8))\n(define-fun t2 () (_ BitVec 8) (bvadd t0 t1))\n(define-fun t3 () (_ BitVec 1) (ite (bvult t2 t0) (_ bv1 1) (_ bv0 1)))\n(assert (= t3 (_ bv1 1)))\n(check-sat)\n";

// Over inputs of 8 and 16 bits: a term on which the goal doesn't depend is left out, and a quotient by 0 is 0.
static DIVIDED: [Part; 7] = [
    Part {
        op: TermOp::Input(1),
        args: &[],
    },
    Part {
        op: TermOp::Extract(3, 8),
        args: &[TermId(0)],
    },
    Part {
        op: TermOp::Not,
        args: &[TermId(0)],
    },
    Part {
        op: TermOp::Input(0),
        args: &[],
    },
    Part {
        op: TermOp::UDiv,
        args: &[TermId(3), TermId(1)],
    },
    Part {
        op: TermOp::SignExt(16),
        args: &[TermId(4)],
    },
    Part {
        op: TermOp::Eq,
        args: &[TermId(5), TermId(0)],
    },
];

static DIVIDED_SCRIPT: &str =
    "(set-logic QF_BV)\n(declare-fun k0 () (_ BitVec 8))\n(declare-fun k1 () (_ BitVec 16))\n(define-fun t0 () (_ BitVec 16) k1)\n(define-fun t1 () (_ BitVec 8) ((_ extract 10 3) t0))\n(define-fun t3 () (_ BitVec 8) k0)\n(define-fun t4 () (_ BitVec 8) (ite (= t1 (_ bv0 8)) (_ bv0 8) (bvudiv t3 t1)))\n(define-fun t5 () (_ BitVec 16) ((_ sign_extend 8) t4))\n(define-fun t6 () (_ BitVec 1) (ite (= t5 t0) (_ bv1 1) (_ bv0 1)))\n(assert (= t6 (_ bv1 1)))\n(check-sat)\n";

// The script of the last of these terms, which has one bit; the test fails if one can't be made.
fn script_of(
    rt: &impl Abort,
    alloc: Global,
    terms: &mut Terms,
    parts: &[Part],
) -> Result<Vec<u8>, NoMemory> {
    let mut goal = TermId(0);
    for part in parts {
        assert!(rt; terms.can_make(part.op, part.args));
        goal = terms.make(part.op, part.args)?;
    }
    assert!(rt; goal.0 < terms.count());
    assert!(rt; terms.width(goal) == 1);
    script(alloc, terms, goal)
}

#[test]
fn goals_have_their_scripts(rt: HostRuntime) -> Result<(), Fail> {
    let widths = vec![in rt.alloc(); 8]?;
    let mut terms = Terms::new(rt.alloc(), List::from_vec(widths));
    let text = script_of(&rt, rt.alloc(), &mut terms, &WRAPPED)?;
    assert!(rt; text.as_slice() == WRAPPED_SCRIPT.as_bytes());
    let widths = vec![in rt.alloc(); 8, 16]?;
    let mut terms = Terms::new(rt.alloc(), List::from_vec(widths));
    let text = script_of(&rt, rt.alloc(), &mut terms, &DIVIDED)?;
    assert!(rt; text.as_slice() == DIVIDED_SCRIPT.as_bytes());
    Ok(())
}
