//! The way through a unit.

ghost use Rattle.std.specs.Prelude.{◌≡◌, ◌⊎◌, ◌≤◌, ◌<◌, List, OnOk, length};
ghost use Rattle.stk_base.specs.Limits.{most_bytes};
ghost use Rattle.stk_ctype.specs.declared.symbol.NameEntry.{NameEntry};
ghost use Rattle.stk_tree.specs.Nodes.{unit_nodes};
ghost use Rattle.stk_tree.specs.View.{view_function, view_unit};
ghost use Rattle.stk_meaning.specs.Weights as weights;
ghost use Rattle.stk_run_laws.specs.Visits.{IsNumbered};
ghost use Rattle.stk_function_types.specs.Nodes.{typing_in};
ghost use Rattle.stk_type_laws.specs.Orderly.{AreOrderly};
ghost use Rattle.stk_accept.specs.Accepting.{Accepts, IsAnswered};
ghost use Rattle.stk_weights.specs.Units.{IsSettingOfFunction};
ghost use Rattle.stk_units.specs.Functions.{IsDefinition};
ghost use Rattle.stk_units.specs.Causes.{body_cause, measured_cause};
ghost use Rattle.stk_units.specs.Known.{IsTypedFunction, IsTypedWell, IsReadWell, AreReadWell, WasAccepted, WasAnswered};
ghost use Rattle.stk_units.specs.Visiting.{LeavingOut, Judging, HasStoppedBefore, HasVisitedFunction, HasLeftUntyped, HasVisitedUnit};

use crate::causes::{cause_of, function_weight, rule_cause, weight_cause};
use std::alloc::Global;
use stk_accept::{Accepted, accept};
use stk_ctype::Names;
use stk_function_env::Setting;
use stk_function_types::FunctionTypes;
use stk_lex::{Places, Token};
use stk_numbers::Kinds;
use stk_records::{Cause, Stop};
use stk_tree::{Function, Unit};
use stk_typed::{Untyped, typed_of};

/// A unit of a file: where memory comes from, the file's bytes with the places in them, the kinds of conditions that
/// are taken out, whether the unit is marked as one of functions that don't return, how many of its tokens stand before
/// a body, where it has one, and its tokens, of which there is at least one.
#[derive(Clone, Copy)]
pub struct VisitedUnit<'a> {
    pub alloc: Global,
    pub input: &'a Places<'a>,
    pub without: Kinds,
    pub mark: bool,
    pub body: Option<usize>,
    pub tokens: &'a [Token],
}

/// What is done with units: with one that is left out, and with a function that is judged. A visitor has a state of its
/// own; where it writes, and whom it asks, are states that it is handed. Its clauses say what it does by relations of
/// its answer and of the three states before and behind; what it answers is `Ok`, or why it stopped.
pub trait UnitVisitor<O, A> {
    /// Whether a function can be judged.
    ghost ready: { Self → Type 0 };

    /// What is done with a unit that is left out.
    ghost leaves: { LeavingOut Self O A };

    /// What is done with a function that is judged.
    ghost judges: { Judging Self O A };

    /// Does what is to be done with a unit that is left out for a cause.
    fn leave_out(
        &mut self,
        unit: &VisitedUnit,
        cause: Cause,
        out: &mut O,
        asked: &mut A,
    ) -> Result<(), Stop>
        requires some { 0 < length unit.now.tokens.now }
        ensures { leaves unit.now.input.now unit.now.tokens.now cause result self.old self.new out.old out.new asked.old asked.new };

    /// Does what is to be done with the function that a unit defines, which is accepted, typed, and of at most
    /// 8,000,000 of weight. The setting is the function's, of the unit's input.
    fn judge(
        &mut self,
        unit: &VisitedUnit,
        setting: &Setting,
        f: &Function,
        out: &mut O,
        asked: &mut A,
    ) -> Result<(), Stop>
        requires ready { ready self.old }
        requires some { 0 < length unit.now.tokens.now }
        requires input { unit.now.input.now ≡ setting.now.types.bytes }
        requires of { IsSettingOfFunction (view_function f.now) setting.now }
        requires numbered { IsNumbered (typing_in setting.now.types) (view_function f.now) }
        requires typed { IsTypedFunction (typing_in setting.now.types) setting.now.without (view_function f.now) }
        requires light { weights.weight (typing_in setting.now.types) setting.now.without (view_function f.now) ≤ weights.most_weight }
        ensures { judges setting.now.types.bytes setting.now.without setting.now.types.entries unit.now.tokens.now (view_unit setting.now.types.unit) (view_function f.now) result self.old self.new out.old out.new asked.old asked.new };
}

// Visits a function whose body is typed.
fn visit_typed<O, A, V: UnitVisitor<O, A>>(
    unit: &VisitedUnit,
    types: &FunctionTypes,
    f: &Function,
    visitor: &mut V,
    out: &mut O,
    asked: &mut A,
) -> Result<(), Stop>
    requires ready { V.ready visitor.old }
    requires some { 0 < length unit.now.tokens.now }
    requires input { unit.now.input.now ≡ types.now.bytes }
    requires is { IsDefinition (view_unit types.now.unit) (view_function f.now) }
    requires read { IsReadWell (view_unit types.now.unit) }
    requires few { unit_nodes (view_unit types.now.unit) ≤ 20000 }
    requires typed { IsTypedFunction (typing_in types.now) unit.now.without (view_function f.now) }
    ensures { HasVisitedFunction V.leaves V.judges types.now.bytes unit.now.without types.now.entries unit.now.tokens.now (view_unit types.now.unit) (view_function f.now) (measured_cause (typing_in types.now) unit.now.without (view_unit types.now.unit)) result visitor.old visitor.new out.old out.new asked.old asked.new }
{
    let setting = Setting::new(unit.alloc, types, unit.without, f)?;
    let weight = function_weight(unit.alloc, &setting)?;
    match weight_cause(weight) {
        Some(cause) => visitor.leave_out(unit, cause, out, asked),
        None => visitor.judge(unit, &setting, f, out, asked),
    }
}

// Visits a function whose body isn't typed.
fn visit_untyped<O, A, V: UnitVisitor<O, A>>(
    unit: &VisitedUnit,
    tree: &Unit,
    untyped: Untyped,
    visitor: &mut V,
    out: &mut O,
    asked: &mut A,
) -> Result<(), Stop>
    requires some { 0 < length unit.now.tokens.now }
    ensures { HasStoppedBefore result visitor.old visitor.new out.old out.new asked.old asked.new ⊎ HasLeftUntyped V.leaves unit.now.input.now unit.now.tokens.now (view_unit tree.now) untyped result visitor.old visitor.new out.old out.new asked.old asked.new }
{
    match untyped {
        Untyped::Rule { node, rule } => {
            let cause = rule_cause(unit.alloc, unit.input, tree, node, rule)?;
            visitor.leave_out(unit, cause, out, asked)
        }
        Untyped::Nodes { count } => visitor.leave_out(unit, Cause::Nodes { count }, out, asked),
        Untyped::NoMemory => Err(Stop::NoMemory),
    }
}

// Visits a function, under the names that its head leaves.
fn visit_function<O, A, V: UnitVisitor<O, A>>(
    unit: &VisitedUnit,
    tree: &Unit,
    f: &Function,
    names: &Names,
    visitor: &mut V,
    out: &mut O,
    asked: &mut A,
) -> Result<(), Stop>
    requires ready { V.ready visitor.old }
    requires some { 0 < length unit.now.tokens.now }
    requires is { IsDefinition (view_unit tree.now) (view_function f.now) }
    requires read { IsReadWell (view_unit tree.now) }
    requires typed { IsTypedWell unit.now.input.now unit.now.without names.now (view_unit tree.now) (view_function f.now) }
    ensures { HasVisitedFunction V.leaves V.judges unit.now.input.now unit.now.without names.now unit.now.tokens.now (view_unit tree.now) (view_function f.now) (body_cause unit.now.input.now unit.now.without names.now (view_unit tree.now)) result visitor.old visitor.new out.old out.new asked.old asked.new }
{
    match typed_of(unit.alloc, unit.input.bytes(), tree, names) {
        Ok(types) => visit_typed(unit, &types, f, visitor, out, asked),
        Err(untyped) => visit_untyped(unit, tree, untyped, visitor, out, asked),
    }
}

// Visits a unit that is accepted as this tree.
fn visit_tree<O, A, V: UnitVisitor<O, A>>(
    unit: &VisitedUnit,
    tree: &Unit,
    names: &Names,
    visitor: &mut V,
    out: &mut O,
    asked: &mut A,
) -> Result<(), Stop>
    requires ready { V.ready visitor.old }
    requires some { 0 < length unit.now.tokens.now }
    requires read { IsReadWell (view_unit tree.now) }
    requires accepted { WasAccepted unit.now.input.now unit.now.tokens.now (view_unit tree.now) names.now }
    ensures { (es : List NameEntry) → Accepts unit.now.input.now unit.now.mark es unit.now.tokens.now (view_unit tree.now) names.now → HasVisitedUnit V.leaves V.judges unit.now.input.now unit.now.without unit.now.mark es unit.now.body unit.now.tokens.now names.now result visitor.old visitor.new out.old out.new asked.old asked.new }
{
    match tree {
        Unit::Defines(_, f) => visit_function(unit, tree, f, names, visitor, out, asked),
        Unit::Empty(_) => Ok(()),
        Unit::Declares(_, _) => Ok(()),
    }
}

// Visits a unit that is accepted or isn't.
fn visit_answer<O, A, V: UnitVisitor<O, A>>(
    unit: &VisitedUnit,
    found: &Accepted,
    names: &Names,
    visitor: &mut V,
    out: &mut O,
    asked: &mut A,
) -> Result<(), Stop>
    requires ready { V.ready visitor.old }
    requires some { 0 < length unit.now.tokens.now }
    requires read { AreReadWell found.now }
    requires accepted { WasAnswered unit.now.input.now unit.now.tokens.now found.now names.now }
    ensures { (es : List NameEntry) → IsAnswered unit.now.input.now unit.now.mark es unit.now.tokens.now unit.now.body found.now names.now → HasVisitedUnit V.leaves V.judges unit.now.input.now unit.now.without unit.now.mark es unit.now.body unit.now.tokens.now names.now result visitor.old visitor.new out.old out.new asked.old asked.new }
{
    match found {
        Accepted::Tree(tree) => visit_tree(unit, tree.get(), names, visitor, out, asked),
        Accepted::Refused(refusal) => {
            let cause = cause_of(unit.alloc, unit.input, *refusal)?;
            visitor.leave_out(unit, cause, out, asked)
        }
    }
}

/// Visits a unit: nothing is done with an empty unit and a declaration that are accepted; a unit is left out where no
/// tree is its tokens, where a rule refuses it, and where it defines a function of over 20,000 nodes, or of a weight
/// over 8,000,000; and every other function is judged. The names before the unit are orderly, as units leave them (C11
/// 6.7p7, 6.7.2.1), and become those that it leaves in force. The answer is the visitor's, or `NoMemory` before the
/// visitor did anything.
pub fn visit_unit<O, A, V: UnitVisitor<O, A>>(
    unit: &VisitedUnit,
    names: &mut Names,
    visitor: &mut V,
    out: &mut O,
    asked: &mut A,
) -> Result<(), Stop>
    requires ready { V.ready visitor.old }
    requires some { 0 < length unit.now.tokens.now }
    requires few { length unit.now.tokens.now ≤ most_bytes }
    requires names { AreOrderly names.old }
    ensures visited { HasVisitedUnit V.leaves V.judges unit.now.input.now unit.now.without unit.now.mark names.old unit.now.body unit.now.tokens.now names.new result visitor.old visitor.new out.old out.new asked.old asked.new }
    ensures orderly { OnOk result (AreOrderly names.new) }
{
    let found = accept(
        unit.alloc,
        unit.input.bytes(),
        unit.mark,
        unit.tokens,
        unit.body,
        names,
    )?;
    visit_answer(unit, &found, names, visitor, out, asked)
}
