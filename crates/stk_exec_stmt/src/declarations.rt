//! The declarations of local objects.

ghost use Rattle.std.specs.Prelude.{IfOk, map, option_map};
ghost use Rattle.stk_tree.specs.Syntax.{some_initialiser};
ghost use Rattle.stk_tree.specs.View.{view_initialiser, view_item, items, maybe_initialiser, view_declarator, declarators, view_declaration};
ghost use Rattle.stk_meaning.specs.Places.{in_register, target_at};
ghost use Rattle.stk_meaning.specs.Worlds.{Normal};
ghost use Rattle.stk_meaning.specs.Declarations.{items_run, item_run, initialiser_run, begun_with, begun_without, automatic_run, declarator_run, declarators_run, declaration_run};
ghost use Rattle.stk_eval_expr.specs.Leaving.{Leaves, from};
ghost use Rattle.stk_exec_stmt.specs.Ending.{automatic_end};

use stk_base::NoMemory;
use stk_eval_expr::{State, World, object_address, put_word, store, value, write};
use stk_operators::{Target, Word};
use stk_tree::{Declaration, Declr, Init, Item, is_static};

// An initialiser: its expressions in order (C11 6.7.9p19).
#[cycle(initialiser)]
fn initialiser<W: World>(out: &W, x: &Init, state: &mut State<W::Kept>) -> Result<(), NoMemory>
    ensures { IfOk result (λ _. Leaves W.shown (from W.shown (initialiser_run (W.setting out.now) (W.world out.now) (view_initialiser x.now)) state.old) Normal state.old state.new) }
{
    match x {
        Init::Plain(e) => {
            let _number = value(out, e, state)?;
            Ok(())
        }
        Init::Braces(list, _) => items(out, list.as_slice(), state),
    }
}

// The items of an initialiser in braces.
#[cycle(initialiser)]
fn items<W: World>(out: &W, list: &[Item], state: &mut State<W::Kept>) -> Result<(), NoMemory>
    ensures { IfOk result (λ _. Leaves W.shown (from W.shown (items_run (W.setting out.now) (W.world out.now) (items (map view_item list.now))) state.old) Normal state.old state.new) }
{
    for x in list {
        item(out, x, state)?;
    }
    Ok(())
}

// An item of an initialiser in braces.
#[cycle(initialiser)]
fn item<W: World>(out: &W, x: &Item, state: &mut State<W::Kept>) -> Result<(), NoMemory>
    ensures { IfOk result (λ _. Leaves W.shown (from W.shown (item_run (W.setting out.now) (W.world out.now) (view_item x.now)) state.old) Normal state.old state.new) }
{
    initialiser(out, &x.init, state)
}

// A register without initialiser has any number; where no answer is left, the run ends.
fn begun_register<W: World>(out: &W, k: u32, at: u32, state: &mut State<W::Kept>)
    ensures { Leaves W.shown (begun_without (W.setting out.now) (W.world out.now) k (in_register at) state.old.registers.items (W.shown state.old.kept)) Normal state.old state.new }
{
    match out.unset(k, out.kind_at(k), &mut state.kept) {
        Some(number) => put_word(&mut state.registers, at as usize, number),
        None => state.end(),
    }
}

// The object of a declarator without initialiser.
fn begun_without<W: World>(out: &W, k: u32, state: &mut State<W::Kept>)
    ensures { Leaves W.shown (begun_without (W.setting out.now) (W.world out.now) k (target_at (W.setting out.now) k) state.old.registers.items (W.shown state.old.kept)) Normal state.old state.new }
{
    match out.target_at(k) {
        Target::Register(at) => begun_register(out, k, at, state),
        Target::Kept(at) => out.begin_kept(at, &mut state.kept),
        Target::Object(_) => {}
        Target::Unnamed => {}
    }
}

// The object of a declarator gets the number of its initialiser, in its type; an array or a struct is written by the
// outside.
fn begun_with<W: World>(
    out: &W,
    k: u32,
    number: Word,
    state: &mut State<W::Kept>,
) -> Result<(), NoMemory>
    ensures { IfOk result (λ _. Leaves W.shown (automatic_end (W.setting out.now) (W.world out.now) k number state.old.registers.items (W.shown state.old.kept)) Normal state.old state.new) }
{
    if out.is_scalar_at(k) {
        let kind = out.kind_at(k);
        let address = object_address(out, k);
        store(
            out,
            out.target_at(k),
            kind,
            address,
            number.to_kind(kind),
            state,
        )
    } else {
        write(out, state)
    }
}

// An automatic object with an initialiser: a number is stored, and the outside writes what braces initialise.
fn initialised<W: World>(
    out: &W,
    k: u32,
    x: &Init,
    state: &mut State<W::Kept>,
) -> Result<(), NoMemory>
    ensures { IfOk result (λ _. Leaves W.shown (from W.shown (automatic_run (W.setting out.now) (W.world out.now) k (some_initialiser (view_initialiser x.now))) state.old) Normal state.old state.new) }
{
    match x {
        Init::Plain(e) => {
            let number = value(out, e, state)?;
            begun_with(out, k, number, state)
        }
        Init::Braces(list, _) => {
            items(out, list.as_slice(), state)?;
            write(out, state)
        }
    }
}

// An automatic object (C11 6.2.4p6).
fn automatic<W: World>(
    out: &W,
    k: u32,
    init: &Option<Init>,
    state: &mut State<W::Kept>,
) -> Result<(), NoMemory>
    ensures { IfOk result (λ _. Leaves W.shown (from W.shown (automatic_run (W.setting out.now) (W.world out.now) k (maybe_initialiser (option_map view_initialiser init.now))) state.old) Normal state.old state.new) }
{
    match init {
        None => {
            begun_without(out, k, state);
            Ok(())
        }
        Some(x) => initialised(out, k, x, state),
    }
}

// A declarator: a `static` object has its value before the function runs (C11 6.2.4p3).
fn declarator<W: World>(
    out: &W,
    lasts: bool,
    d: &Declr,
    state: &mut State<W::Kept>,
) -> Result<(), NoMemory>
    ensures { IfOk result (λ _. Leaves W.shown (from W.shown (declarator_run (W.setting out.now) (W.world out.now) lasts (view_declarator d.now)) state.old) Normal state.old state.new) }
{
    if lasts {
        return Ok(());
    }
    automatic(out, d.node.number, &d.init, state)?;
    Ok(())
}

/// A declaration of a block: its declarators from left to right.
pub(crate) fn declaration<W: World>(
    out: &W,
    d: &Declaration,
    state: &mut State<W::Kept>,
) -> Result<(), NoMemory>
    ensures { IfOk result (λ _. Leaves W.shown (from W.shown (declaration_run (W.setting out.now) (W.world out.now) (view_declaration d.now)) state.old) Normal state.old state.new) }
{
    let lasts = is_static(d.storage);
    declarators(out, lasts, d.list.as_slice(), state)?;
    Ok(())
}

// Declarators from left to right.
fn declarators<W: World>(
    out: &W,
    lasts: bool,
    list: &[Declr],
    state: &mut State<W::Kept>,
) -> Result<(), NoMemory>
    ensures { IfOk result (λ _. Leaves W.shown (from W.shown (declarators_run (W.setting out.now) (W.world out.now) lasts (declarators (map view_declarator list.now))) state.old) Normal state.old state.new) }
{
    for d in list {
        declarator(out, lasts, d, state)?;
    }
    Ok(())
}
