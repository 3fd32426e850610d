//! What the decider is asked of functions of more than 16 input bits, and what it gives up.

ghost use Rattle.std.specs.Prelude.{◌≡◌, ◌+◌, ◌<◌, ◌≤◌, ◌^◌, true, length, sum, IfOk};
ghost use Rattle.stk_base.specs.Causes.{Rose};
ghost use Rattle.stk_terms.specs.Values.{width_at};
ghost use Rattle.stk_terms.specs.Cost.{cost};
ghost use Rattle.stk_rewrite.specs.Normal.{IsNormal};
ghost use Rattle.stk_goal_clauses.specs.Laws.{IsNever};
ghost use Rattle.stk_query.specs.Verdicts.{is_undecided, is_no, IsVerdict};

use crate::running::{ran, ran_with};
use std::alloc::Global;
use std::test::Fail;
use stk_base::{NoMemory, Status};
use stk_query::{Cdcl, Decider, MOST_BUDGET, Verdict};
use stk_terms::{TermId, Terms};

/// The program's decider, and how many goals it was asked.
#[derive(Drop)]
struct Counted {
    decider: Cdcl,
    asked: u64,
}

impl Decider for Counted {
    ghost given_up = { λ c. c.decider };

    fn ask(&mut self, terms: &Terms, goal: TermId, budget: u32) -> Result<Verdict, NoMemory>
        requires exists { goal.0 < length terms.now.terms }
        requires one { width_at terms.now goal.0 ≡ 1 }
        requires least { 1 ≤ budget }
        requires most { budget ≤ MOST_BUDGET }
        requires room { sum terms.now.inputs + cost terms.now goal.0 < 2 ^ 29 }
        requires normal { IsNormal terms.now goal.0 }
        ensures verdict { IfOk result (IsVerdict terms.now goal.0 budget) }
        ensures no { IfOk result (λ v. is_no v ≡ true → IsNever terms.now goal.0) }
        ensures tried { sum terms.now.inputs ≤ 16 → IsNever terms.now goal.0 → IfOk result (λ v. v ≡ Verdict.Tried) }
        ensures rose { IfOk result (λ v. is_undecided v ≡ true → Rose self.old.decider self.new.decider) }
        ensures later { self.old.decider ≤ self.new.decider }
    {
        self.asked = self.asked.saturating_add(1);
        self.decider.ask(terms, goal, budget)
    }
}

/// Words and an input, the status of its run, and how many goals the decider was asked and gave up.
struct Row {
    words: &'static [&'static str],
    input: &'static str,
    status: Status,
    asked: u64,
    given_up: u64,
}

static ROWS: [Row; 7] = [
    // Known starts hit each of thirty candidates with nothing violated before.
    Row {
        words: &[],
        input: "int f(int x) { if (x == 0) return 0; if (x == 1) return 1; if (x == 2) return 2; if (x == 3) return 3; if (x == 4) return 4; if (x == 5) return 5; if (x == 7) return 7; if (x == 8) return 8; if (x == 10) return 10; if (x == 16) return 16; return -1; }",
        status: Status::Stable,
        asked: 0,
        given_up: 0,
    },
    // So do the numbers that stand in the function.
    Row {
        words: &[],
        input: "int f(int x) { if (x == 4242) return 1; switch (x) { case 77777: return 2; case 123456: return 3; } return 0; }",
        status: Status::Stable,
        asked: 0,
        given_up: 0,
    },
    // A known start shows the set of a test and that of its branch, which one question confirms.
    Row {
        words: &[],
        input: "int f(int x) { int y = 10 / x; if (x == 0) return 1; return y; }",
        status: Status::Found,
        asked: 1,
        given_up: 0,
    },
    // A function of 16 input bits whose candidates are clear: one question finds that no run hits two of them.
    Row {
        words: &[],
        input: "int f(unsigned char a, unsigned char b) { if (a / (b + 1) == 300) return a; return b; }",
        status: Status::Stable,
        asked: 1,
        given_up: 0,
    },
    // The same with a report behind clear candidates: one question shows that there is one, and then all maps are known,
    // and nothing is asked.
    Row {
        words: &[],
        input: "int f(unsigned char a, unsigned char b) { int c = a / b; if (b == 0) return 1; return c; }",
        status: Status::Found,
        asked: 1,
        given_up: 0,
    },
    // Two candidates that no known start hits, of a function without conditions: the guess is the free query, which is
    // asked once.
    Row {
        words: &["--budget", "1"],
        input: "int f(unsigned long x, unsigned long y) { if ((x + y) * (x - y) != x * x - y * y) return 1; return 0; }",
        status: Status::Unsure,
        asked: 2,
        given_up: 2,
    },
    // A test that is never true, and its branch: one question finds that no run hits either.
    Row {
        words: &[],
        input: "int f(int x) { if (x != x) return 1; return 0; }",
        status: Status::Stable,
        asked: 1,
        given_up: 0,
    },
];

#[test]
fn questions_are_few(rt: HostRuntime) -> Result<(), Fail> {
    for row in &ROWS {
        let mut decider = Counted {
            decider: Cdcl::new(rt.alloc()),
            asked: 0,
        };
        let run = ran(rt.alloc(), row.words, row.input, &mut decider)?;
        assert!(rt; run.status == row.status, "{:?}", row.input);
        assert!(rt; decider.asked == row.asked, "{:?}", row.input);
        assert!(rt;
            decider.decider.given_up() == row.given_up,
            "{:?}",
            row.input
        );
    }
    Ok(())
}

// How many goals the decider is asked of a function with two divisions and the tests of their divisors, where these
// calls of the output fail, and whether all records were written.
fn asked_where(alloc: Global, failing: &[u64]) -> Result<(u64, bool), Fail> {
    let input =
        "int f(int x, int y) { int a = 10 / x; int b = 10 / y; if (x == 0) return 1; if (y == 0) return 2; return a + b; }";
    let mut decider = Counted {
        decider: Cdcl::new(alloc),
        asked: 0,
    };
    let run = ran_with(alloc, &[], input, &mut decider, failing)?;
    Ok((decider.asked, run.status == Status::Found))
}

// Where the record of the first candidate can't be written, nothing is asked of the others.
#[test]
fn a_record_is_written_before_the_next_question(rt: HostRuntime) -> Result<(), Fail> {
    let (all, written) = asked_where(rt.alloc(), &[])?;
    assert!(rt; written, "the records are written");
    let (first, written) = asked_where(rt.alloc(), &[0])?;
    assert!(rt; !written, "the first record isn't written");
    assert!(rt; 1 <= first && first < all, "{first} of {all}");
    Ok(())
}
