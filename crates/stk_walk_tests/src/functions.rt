//! From a text to its functions, each with the tables by which it is walked.

ghost use Rattle.std.specs.Prelude.{◌≡◌, ◌≤◌, length, IfOk, OnOk};
ghost use Rattle.stk_base.specs.Limits.{most_bytes};
ghost use Rattle.stk_tree.specs.Nodes.{unit_nodes};
ghost use Rattle.stk_tree.specs.View.{view_function, view_unit};
ghost use Rattle.stk_meaning.specs.Lists as lists;
ghost use Rattle.stk_meaning.specs.Weights as weights;
ghost use Rattle.stk_run_laws.specs.Visits.{IsNumbered};
ghost use Rattle.stk_function_types.specs.Nodes.{typing_in};
ghost use Rattle.stk_type_laws.specs.Orderly.{AreOrderly};
ghost use Rattle.stk_goals.specs.Searched.{IsSearched};
ghost use Rattle.stk_weights.specs.Units.{IsSettingOfFunction};
ghost use Rattle.stk_units.specs.Functions.{IsDefinition};
ghost use Rattle.stk_units.specs.Known.{IsTypedFunction, IsTypedWell, IsReadWell, AreReadWell, WasAccepted, WasAnswered};

use std::alloc::Global;
use stk_accept::{Accepted, accept};
use stk_base::{MOST_BYTES, NoMemory};
use stk_cands::{candidates, conditions};
use stk_ctype::Names;
use stk_findings::SearchedFunction;
use stk_function_env::Setting;
use stk_function_types::FunctionTypes;
use stk_lex::{Piece, Token, cut, lex, skim};
use stk_numbers::Kinds;
use stk_path_runs::FunctionTables;
use stk_tree::{Function, Unit};
use stk_typed::{Untyped, typed_of};
use stk_weights::weight_of;

// The greatest weight of a function that is searched.
const MOST_WEIGHT: u64 = 8_000_000;

// No kind is taken out.
const NOTHING: Kinds = Kinds {
    overflow: false,
    zero: false,
    shift: false,
    null: false,
    pointer: false,
    bounds: false,
    abs: false,
    copy: false,
};

/// Visits functions that are searched.
pub(crate) trait Visitor {
    /// Visits one, by its tables, its candidates and its conditions.
    fn visit(&mut self, alloc: Global, searched: &SearchedFunction) -> Result<(), NoMemory>
        requires searched { IsSearched searched.now.tables.now (view_function searched.now.function.now) }
        requires candidates { searched.now.candidates.now ≡ lists.candidates (typing_in searched.now.tables.now.places.types) (view_function searched.now.function.now) };
}

// Visits a function of a setting.
fn visit_function<V: Visitor>(
    alloc: Global,
    setting: &Setting,
    f: &Function,
    visitor: &mut V,
) -> Result<(), NoMemory>
    requires of { IsSettingOfFunction (view_function f.now) setting.now }
    requires numbered { IsNumbered (typing_in setting.now.types) (view_function f.now) }
    requires typed { IsTypedFunction (typing_in setting.now.types) setting.now.without (view_function f.now) }
    requires light { weights.weight (typing_in setting.now.types) setting.now.without (view_function f.now) ≤ weights.most_weight }
{
    let list = candidates(alloc, setting.types(), f)?;
    let all = conditions(alloc, setting.types(), setting.without(), f)?;
    let tables = FunctionTables::new(alloc, setting, f)?;
    let searched = SearchedFunction {
        tables: &tables,
        function: f,
        candidates: list.as_slice(),
        conditions: all.as_slice(),
        budget: 20_000,
    };
    visitor.visit(alloc, &searched)
}

// Visits a function whose body is typed, if it isn't too heavy.
fn visit_typed<V: Visitor>(
    alloc: Global,
    types: &FunctionTypes,
    f: &Function,
    without: Kinds,
    visitor: &mut V,
) -> Result<(), NoMemory>
    requires is { IsDefinition (view_unit types.now.unit) (view_function f.now) }
    requires read { IsReadWell (view_unit types.now.unit) }
    requires few { unit_nodes (view_unit types.now.unit) ≤ 20000 }
    requires typed { IsTypedFunction (typing_in types.now) without (view_function f.now) }
{
    let setting = Setting::new(alloc, types, without, f)?;
    let weight = weight_of(alloc, &setting)?;
    if weight > MOST_WEIGHT {
        return Ok(());
    }
    visit_function(alloc, &setting, f, visitor)
}

// Visits the function that a unit defines, under the names that its head leaves.
fn visit_defined<V: Visitor>(
    alloc: Global,
    bytes: &[u8],
    unit: &Unit,
    f: &Function,
    names: &Names,
    without: Kinds,
    visitor: &mut V,
) -> Result<(), NoMemory>
    requires is { IsDefinition (view_unit unit.now) (view_function f.now) }
    requires read { IsReadWell (view_unit unit.now) }
    requires typed { IsTypedWell bytes.now without names.now (view_unit unit.now) (view_function f.now) }
{
    match typed_of(alloc, bytes, unit, names) {
        Ok(types) => visit_typed(alloc, &types, f, without, visitor),
        Err(Untyped::Rule { node: _, rule: _ }) | Err(Untyped::Nodes { count: _ }) => Ok(()),
        Err(Untyped::NoMemory) => Err(NoMemory),
    }
}

// Visits the function of a unit that is accepted as this tree, where it defines one.
fn visit_tree<V: Visitor>(
    alloc: Global,
    bytes: &[u8],
    tokens: &[Token],
    unit: &Unit,
    names: &Names,
    visitor: &mut V,
) -> Result<(), NoMemory>
    requires read { IsReadWell (view_unit unit.now) }
    requires accepted { WasAccepted bytes.now tokens.now (view_unit unit.now) names.now }
{
    // The contract alone reads the tokens.
    let _ = tokens;
    match unit {
        Unit::Defines(_, f) => visit_defined(alloc, bytes, unit, f, names, NOTHING, visitor),
        Unit::Empty(_) | Unit::Declares(_, _) => Ok(()),
    }
}

// Visits the function of a unit that is accepted, where it defines one.
fn visit_answer<V: Visitor>(
    alloc: Global,
    bytes: &[u8],
    tokens: &[Token],
    found: &Accepted,
    names: &Names,
    visitor: &mut V,
) -> Result<(), NoMemory>
    requires read { AreReadWell found.now }
    requires accepted { WasAnswered bytes.now tokens.now found.now names.now }
{
    match found {
        Accepted::Tree(unit) => visit_tree(alloc, bytes, tokens, unit.get(), names, visitor),
        Accepted::Refused(_) => Ok(()),
    }
}

// What is said of a unit under orderly names, which it leaves orderly.
fn accepted(
    alloc: Global,
    bytes: &[u8],
    piece: &Piece,
    tokens: &[Token],
    names: &mut Names,
) -> Result<Accepted, NoMemory>
    requires few { length tokens.now ≤ most_bytes }
    requires names { AreOrderly names.old }
    ensures names { OnOk result (AreOrderly names.new) }
    ensures read { IfOk result AreReadWell }
    ensures accepted { IfOk result (λ found. WasAnswered bytes.now tokens.now found names.new) }
{
    let body = piece.body.map(|at| at.saturating_sub(piece.from) as usize);
    let found = accept(alloc, bytes, piece.no_return, tokens, body, names)?;
    Ok(found)
}

// Visits the function of a unit, and declares what the unit declares.
fn visit_unit<V: Visitor>(
    alloc: Global,
    bytes: &[u8],
    piece: &Piece,
    tokens: &[Token],
    names: &mut Names,
    visitor: &mut V,
) -> Result<(), NoMemory>
    requires few { length tokens.now ≤ most_bytes }
    requires names { AreOrderly names.old }
    ensures names { OnOk result (AreOrderly names.new) }
{
    let found = accepted(alloc, bytes, piece, tokens, names)?;
    visit_answer(alloc, bytes, tokens, &found, names, visitor)
}

// Visits the functions of units, one after the other.
fn visit_units<V: Visitor>(
    alloc: Global,
    bytes: &[u8],
    tokens: &[Token],
    pieces: &[Piece],
    visitor: &mut V,
) -> Result<(), NoMemory> {
    let mut names = Names::new(alloc);
    for piece in pieces {
        let Some(unit) = tokens.get(piece.from as usize..piece.to as usize) else {
            return Ok(());
        };
        if unit.len() as u64 > MOST_BYTES {
            return Ok(());
        }
        visit_unit(alloc, bytes, piece, unit, &mut names, visitor)?;
    }
    Ok(())
}

/// Visits each function of a text that the rules accept and that isn't too heavy, in order.
pub(crate) fn visit_functions<V: Visitor>(
    alloc: Global,
    text: &[u8],
    visitor: &mut V,
) -> Result<(), NoMemory> {
    if text.len() as u64 > MOST_BYTES {
        return Ok(());
    }
    let tokens = lex(alloc, text)?;
    let skimmed = skim(alloc, text, tokens.as_slice())?;
    let pieces = cut(alloc, text, &skimmed)?;
    visit_units(
        alloc,
        text,
        skimmed.tokens.as_slice(),
        pieces.as_slice(),
        visitor,
    )
}
