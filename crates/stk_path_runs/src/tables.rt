//! What path runs of a function look up.

ghost use Rattle.std.specs.Prelude.{◌≡◌, IfOk};
ghost use Rattle.std.specs.Option.{option_copied};
ghost use Rattle.stk_tree.specs.View.{view_function};
ghost use Rattle.stk_function_types.specs.Nodes.{typing_in};
ghost use Rattle.stk_meaning.specs.Keys.{body_of};
ghost use Rattle.stk_run_laws.specs.Visits.{IsNumbered};
ghost use Rattle.stk_eval_expr.specs.Loops.{EachLoop};
ghost use Rattle.stk_function_env.specs.Settings.{setting_in};
ghost use Rattle.stk_path_runs.specs.Places.{IsKeyIndex};
ghost use Rattle.stk_path_runs.specs.Rows.{Knows, row_at};

use crate::KeyIndex;
use crate::loop_rows::{LoopRow, LoopRows, rows_among};
use std::alloc::Global;
use std::marker::Model;
use stk_base::NoMemory;
use stk_function_env::Setting;
use stk_function_types::function_visits;
use stk_tree::Function;

/// What the runs of a function rest on, with the places of its keys and what each of its loops changes. It is made once
/// for a function; its look-ups take no memory, and constant time.
#[derive(Drop)]
pub struct FunctionTables<'a> {
    setting: &'a Setting<'a>,
    index: KeyIndex,
    loops: LoopRows,
}

impl<'a> Model for FunctionTables<'a> {
    ghost use Rattle.std.specs.Prelude.{◌≡◌};
    ghost use Rattle.std.specs.Coded.{codes};
    ghost use Rattle.stk_ctype.specs.contracts.ctype.CType as ctype;
    ghost use Rattle.stk_ctype.specs.contracts.ctype.Signature as signature;
    ghost use Rattle.stk_tree.specs.contracts.expression.Expr as expr;
    ghost use Rattle.stk_tree.specs.contracts.expression.ExprForm as expr_form;
    ghost use Rattle.stk_tree.specs.contracts.declaration.Base as base;
    ghost use Rattle.stk_tree.specs.contracts.declaration.BaseForm as base_form;
    ghost use Rattle.stk_tree.specs.contracts.declaration.Member as member;
    ghost use Rattle.stk_tree.specs.contracts.declaration.Enumr as enumr;
    ghost use Rattle.stk_tree.specs.contracts.declaration.Declr as declr;
    ghost use Rattle.stk_tree.specs.contracts.declaration.Tail as tail;
    ghost use Rattle.stk_tree.specs.contracts.declaration.Dimension as dimension;
    ghost use Rattle.stk_tree.specs.contracts.declaration.Param as param;
    ghost use Rattle.stk_tree.specs.contracts.declaration.TypeName as type_name;
    ghost use Rattle.stk_tree.specs.contracts.declaration.Init as init;
    ghost use Rattle.stk_tree.specs.contracts.declaration.Item as item;
    ghost use Rattle.stk_tree.specs.contracts.declaration.Desig as desig;
    ghost use Rattle.stk_tree.specs.contracts.statement.Stmt as stmt;
    ghost use Rattle.stk_tree.specs.contracts.statement.StmtForm as stmt_form;
    ghost use Rattle.stk_tree.specs.contracts.statement.Part as part;
    ghost use Rattle.stk_tree.specs.contracts.statement.Section as section;
    ghost use Rattle.stk_path_runs.specs.Places.{IsKeyIndex};
    ghost use Rattle.stk_path_runs.specs.Rows.{Tables, AreRowPlaces};

    ghost Value = { Tables };

    ghost coded = { Prim.hlevel (codes, ctype.the_row.coded, signature.the_row.coded, expr.the_row.coded, expr_form.the_row.coded, base.the_row.coded, base_form.the_row.coded, member.the_row.coded, enumr.the_row.coded, declr.the_row.coded, tail.the_row.coded, dimension.the_row.coded, param.the_row.coded, type_name.the_row.coded, init.the_row.coded, item.the_row.coded, desig.the_row.coded, stmt.the_row.coded, stmt_form.the_row.coded, part.the_row.coded, section.the_row.coded) };

    ghost view = { λ t. record { places = t.setting.now; rows = t.loops.rows.items } };

    ghost invariant = { λ t. IsKeyIndex t.index t.setting.now.keys × AreRowPlaces t.loops };
}

impl<'a> FunctionTables<'a> {
    /// The tables of a function, for its setting. Where the nodes of the function are numbered children first, they
    /// know each of its loops.
    pub fn new(
        alloc: Global,
        setting: &'a Setting<'a>,
        f: &Function,
    ) -> Result<FunctionTables<'a>, NoMemory>
        ensures places { IfOk result (λ t. t.places ≡ setting.now) }
        ensures loops { IsNumbered (typing_in setting.now.types) (view_function f.now) → IfOk result (λ t. EachLoop (Knows (setting_in setting.now) setting.now.keys t.rows) (body_of (view_function f.now))) }
    {
        let index = KeyIndex::of(alloc, setting.keys())?;
        let visits = function_visits(alloc, setting.types(), f)?;
        let loops = rows_among(alloc, setting, &index, visits.as_slice())?;
        Ok(FunctionTables {
            setting,
            index,
            loops,
        })
    }

    /// What the runs of the function rest on.
    pub fn setting(&self) -> &'a Setting<'a>
        ensures { result.now ≡ self.now.places }
    {
        self.setting
    }

    /// The places of the function's keys.
    pub fn index(&self) -> &KeyIndex
        ensures { IsKeyIndex result.now self.now.places.keys }
    {
        &self.index
    }

    /// What the first loop at a node changes; none where no loop stands there.
    pub fn row(&self, node: u32) -> Option<&LoopRow>
        ensures { option_copied result ≡ row_at node self.now.rows }
    {
        self.loops.at(node)
    }
}
