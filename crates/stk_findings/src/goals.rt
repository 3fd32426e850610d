//! The goals of a function.

ghost use Rattle.std.specs.Prelude.{◌≡◌, ◌≤◌, Some, slice_get, true, IfOk};
ghost use Rattle.stk_base.specs.Causes.{Rose};
ghost use Rattle.stk_tree.specs.View.{view_function};
ghost use Rattle.stk_meaning.specs.Lists as lists;
ghost use Rattle.stk_function_types.specs.Nodes.{typing_in};
ghost use Rattle.stk_goals.specs.Searched.{IsSearched};
ghost use Rattle.stk_findings.specs.Asked.{typing_asked, without_asked, tree_asked};
ghost use Rattle.stk_findings.specs.Answers.{is_given_up, IsRightAnswer};

use crate::asking::{Asked, Goal, answered};
use std::alloc::Global;
use std::marker::Model;
use stk_base::NoMemory;
use stk_goals::{FunctionTables, Query, add_goal, walked_store};
use stk_numbers::{Candidate, IntKind};
use stk_query::{Decider, MOST_BUDGET};
use stk_symbols::{IndexedWalk, Symbols};
use stk_tree::Function;
use stk_wide_judge::QueryAnswer;

/// The goals of a function's queries: a store of terms whose inputs are the function's keys, and the walk of the
/// function over it. A goal is made as its query is asked; all of them share the terms of the walk.
///
/// Contracts see it as the function, by the tables of its path runs and its tree.
#[derive(Drop)]
pub struct FunctionGoals<'a> {
    alloc: Global,
    tables: &'a FunctionTables<'a>,
    function: &'a Function,
    kinds: Vec<IntKind>,
    symbols: Symbols,
    walk: IndexedWalk,
    asked: Asked,
}

impl<'a> Model for FunctionGoals<'a> {
    ghost use Rattle.std.specs.Prelude.{◌≡◌};
    ghost use Rattle.std.specs.Coded.{codes};
    ghost use Rattle.stk_ctype.specs.contracts.ctype.CType as ctype;
    ghost use Rattle.stk_ctype.specs.contracts.ctype.Signature as signature;
    ghost use Rattle.stk_tree.specs.contracts.expression.Expr as expr;
    ghost use Rattle.stk_tree.specs.contracts.expression.ExprForm as expr_form;
    ghost use Rattle.stk_tree.specs.contracts.declaration.Base as base;
    ghost use Rattle.stk_tree.specs.contracts.declaration.BaseForm as base_form;
    ghost use Rattle.stk_tree.specs.contracts.declaration.Member as member;
    ghost use Rattle.stk_tree.specs.contracts.declaration.Enumr as enumr;
    ghost use Rattle.stk_tree.specs.contracts.declaration.Declr as declr;
    ghost use Rattle.stk_tree.specs.contracts.declaration.Tail as tail;
    ghost use Rattle.stk_tree.specs.contracts.declaration.Dimension as dimension;
    ghost use Rattle.stk_tree.specs.contracts.declaration.Param as param;
    ghost use Rattle.stk_tree.specs.contracts.declaration.TypeName as type_name;
    ghost use Rattle.stk_tree.specs.contracts.declaration.Init as init;
    ghost use Rattle.stk_tree.specs.contracts.declaration.Item as item;
    ghost use Rattle.stk_tree.specs.contracts.declaration.Desig as desig;
    ghost use Rattle.stk_tree.specs.contracts.statement.Stmt as stmt;
    ghost use Rattle.stk_tree.specs.contracts.statement.StmtForm as stmt_form;
    ghost use Rattle.stk_tree.specs.contracts.statement.Part as part;
    ghost use Rattle.stk_tree.specs.contracts.statement.Section as section;
    ghost use Rattle.stk_findings.specs.Asked.{AskedFunction, AreGoalsIn};

    ghost Value = { AskedFunction };

    ghost coded = { Prim.hlevel (codes, ctype.the_row.coded, signature.the_row.coded, expr.the_row.coded, expr_form.the_row.coded, base.the_row.coded, base_form.the_row.coded, member.the_row.coded, enumr.the_row.coded, declr.the_row.coded, tail.the_row.coded, dimension.the_row.coded, param.the_row.coded, type_name.the_row.coded, init.the_row.coded, item.the_row.coded, desig.the_row.coded, stmt.the_row.coded, stmt_form.the_row.coded, part.the_row.coded, section.the_row.coded) };

    ghost view = { λ g. record { tables = g.tables.now; function = g.function.now } };

    ghost invariant = { λ g. AreGoalsIn (record { tables = g.tables.now; function = g.function.now }) g.kinds.items g.symbols g.walk.walked g.asked.nevers.items };
}

impl<'a> FunctionGoals<'a> {
    /// The goals of a function that is searched, by the tables of its path runs and its candidates in order. The
    /// function is walked over all its branches (Wang, Zeldovich, Kaashoek, Solar-Lezama, SOSP 2013, section 4.3). What
    /// the walk's values and a goal cost is at most the function's weight.
    pub fn new(
        alloc: Global,
        tables: &'a FunctionTables<'a>,
        function: &'a Function,
        candidates: &[Candidate],
    ) -> Result<FunctionGoals<'a>, NoMemory>
        requires searched { IsSearched tables.now (view_function function.now) }
        requires candidates { candidates.now ≡ lists.candidates (typing_in tables.now.places.types) (view_function function.now) }
        ensures tables { IfOk result (λ g. g.tables ≡ tables.now) }
        ensures function { IfOk result (λ g. g.function ≡ function.now) }
    {
        let walked = walked_store(alloc, tables, function, candidates)?;
        Ok(FunctionGoals {
            alloc,
            tables,
            function,
            kinds: walked.kinds,
            symbols: walked.symbols,
            walk: walked.walk,
            asked: Asked {
                nevers: Vec::new(alloc),
                misses: 0,
                left: 0,
            },
        })
    }

    /// How many goals were left to a decider, after what is quicker didn't decide them.
    pub(crate) fn left(&self) -> u32 {
        self.asked.left
    }

    /// Whether some valid input map's path run hits the candidate of the query free of its set. The candidate stands
    /// in its place in the list of the function's candidates, the set holds any conditions, and the budget is how many
    /// clauses a search may learn, from 1 to 200,000.
    ///
    /// `Start` has such a map, `Never` comes only where there is none. `GivenUp` comes only where the function has more
    /// than 16 input bits and the decider counted a goal as given up, with a spent log of this budget over clauses that
    /// stand for the query, with no more variables than the function has input bits and weight. What the decider gave
    /// up doesn't become less. A goal that was refuted isn't asked for again. After `NoMemory` other queries may be
    /// asked as before.
    pub fn ask<D: Decider>(
        &mut self,
        decider: &mut D,
        query: &Query,
        budget: u32,
    ) -> Result<QueryAnswer, NoMemory>
        requires at { slice_get (lists.candidates (typing_asked self.old) (tree_asked self.old)) query.now.position ≡ Some query.now.candidate }
        requires least { 1 ≤ budget }
        requires most { budget ≤ MOST_BUDGET }
        ensures right { IfOk result (IsRightAnswer (typing_asked self.old) (without_asked self.old) (tree_asked self.old) query.now.candidate query.now.set.now budget) }
        ensures rose { IfOk result (λ a. is_given_up a ≡ true → Rose (D.given_up decider.old) (D.given_up decider.new)) }
        ensures later { D.given_up decider.old ≤ D.given_up decider.new }
        ensures same { self.new ≡ self.old }
    {
        let term = add_goal(
            self.tables,
            self.function,
            &mut self.symbols,
            &self.walk,
            query,
        )?;
        let goal = Goal {
            term,
            terms: self.symbols.terms(),
            kinds: self.kinds.as_slice(),
        };
        answered(self.alloc, &goal, &mut self.asked, decider, budget)
    }
}
