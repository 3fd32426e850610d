//! What a call does once its arguments have been walked. Only calls of the library look at the numbers of their
//! arguments, and at the first three alone.

ghost use Rattle.std.specs.Prelude.{◌≡◌, ℤ, ◌<◌, ◌+◌, ◌++◌, ◌∷◌, [], get_or, length, pos, List, Some, None, true, option_map, IfOk, OnOk, ◌*◌, ◌≤◌};
ghost use Rattle.stk_ctype.specs.declared.kind.IntKind as kinds;
ghost use Rattle.stk_ctype.specs.Types.{TypeTree, TypeTrees};
ghost use Rattle.stk_tree.specs.Syntax.{ExprTrees, ExprFormTree, call};
ghost use Rattle.stk_tree.specs.View.{view_expression};
ghost use Rattle.stk_meaning.specs.Typings.{number_kind};
ghost use Rattle.stk_meaning.specs.Libraries.{called_library, called_signature, result_in};
ghost use Rattle.stk_meaning.specs.Conditions.{form_tests, library_tests};
ghost use Rattle.stk_meaning.specs.Worlds.{Cut};
ghost use Rattle.stk_meaning.specs.Paths.{path_world};
ghost use Rattle.stk_meaning.specs.Expressions.{breaks, returned, passed};
ghost use Rattle.stk_operators.specs.Shown.{library_shown};
ghost use Rattle.stk_operators.specs.Checked.{tests_of};
ghost use Rattle.stk_eval_expr.specs.Parts.{call_end};
ghost use Rattle.stk_values.specs.Keeping.{Keeps};
ghost use Rattle.stk_guarded.specs.Standing.{Standing, added};
ghost use Rattle.stk_walking.specs.Events.{events_in};
ghost use Rattle.stk_walking.specs.ExpressionEvents.{condition_events};
ghost use Rattle.stk_walking.specs.Keyed.{AreThere};
ghost use Rattle.stk_walking.specs.Leads.{Evaluates};
ghost use Rattle.stk_walking.specs.NodeTests.{IsAskedOf};
ghost use Rattle.stk_walking.specs.Stands.{Stands, IsMade};
ghost use Rattle.stk_walk_values.specs.Arguments.{Takes, set_operand, parameter_kind, in_parameter, parameters_behind, IsFirstKind, ArgumentsMade, ArgumentsShow};
ghost use Rattle.stk_spending.specs.Charges.{argument_charge, call_charge};
ghost use Rattle.stk_walking.specs.Charges.{asked_charge};
ghost use Rattle.stk_walking.specs.Costs.{Costs};
ghost use Rattle.stk_walk_values.specs.CallCharges.{checks_charge, returned_charge};

use stk_base::NoMemory;
use stk_numbers::IntKind;
use stk_operators::{Library, NodeTests};
use stk_tree::Expr;
use stk_values::Values;
use stk_walking::{
    InputKey, Operand, Operands, WalkSetting, WalkState, absolute, converted, forget, input_value,
    violate, zero,
};

/// The first three arguments of a call, 0 for one that there isn't, and how many arguments there are, where 3 stands
/// for all greater numbers. Only of a library call are they those of the call.
#[derive(Clone, Copy, Debug)]
pub(crate) struct Arguments<T> {
    pub count: u8,
    pub operands: Operands<T>,
}

// The kind of a parameter of a function of the library, by its position.
fn parameter_kind(library: Library, at: u8) -> Option<IntKind>
    requires { at < 3 }
    ensures { result ≡ parameter_kind (library_shown library) at }
{
    match library {
        Library::AbsoluteIn(kind) => { if at == 0 { Some(kind) } else { None } }
        Library::CopyBytes => Some(IntKind::ULong),
    }
}

// The kind of the first parameter of a function of the library.
fn first_kind(library: Option<Library>) -> IntKind
    ensures { IsFirstKind (option_map library_shown library) result }
{
    match library {
        None => IntKind::Int,
        Some(Library::AbsoluteIn(kind)) => kind,
        Some(Library::CopyBytes) => IntKind::ULong,
    }
}

/// No arguments yet.
pub(crate) fn no_arguments<V: Values>(
    library: Option<Library>,
    values: &mut V,
) -> Result<Arguments<V::Value>, NoMemory>
    ensures makes { IfOk result (λ v. ArgumentsMade (V.made values.new) (option_map library_shown library) v) }
    ensures shown { IfOk result (λ v. (m : List ℤ) → V.serves values.old m → ArgumentsShow (V.shows values.new m) (option_map library_shown library) v []) }
    ensures keeps { Keeps V.serves V.has_key V.made V.shows values.old values.new }
    ensures charge { OnOk result (V.cost values.new ≤ V.cost values.old) }
{
    let kind = first_kind(library);
    let none = zero(values, kind)?;
    let operand = Operand { kind, value: none };
    let operands = Operands {
        first: operand,
        second: operand,
        third: operand,
    };
    Ok(Arguments { count: 0, operands })
}

// An argument in the kind of its parameter, where the library has one at its position.
fn in_parameter<V: Values>(
    library: Library,
    at: u8,
    argument: Operand<V::Value>,
    values: &mut V,
) -> Result<Operand<V::Value>, NoMemory>
    requires within { at < 3 }
    requires argument { V.made values.old argument.kind argument.value }
    ensures makes { IfOk result (λ v. V.made values.new v.kind v.value) }
    ensures kind { IfOk result (λ v. (k : kinds.IntKind) → parameter_kind (library_shown library) at ≡ Some k → v.kind ≡ k) }
    ensures shown { IfOk result (λ v. (m : List ℤ) (x : ℤ) → V.serves values.old m → V.shows values.old m argument.kind argument.value x → V.shows values.new m v.kind v.value (in_parameter (parameter_kind (library_shown library) at) x)) }
    ensures keeps { Keeps V.serves V.has_key V.made V.shows values.old values.new }
    ensures charge { OnOk result (V.cost values.new ≤ V.cost values.old + argument_charge (Some (library_shown library))) }
{
    match parameter_kind(library, at) {
        None => Ok(argument),
        Some(kind) => {
            let value = converted(values, argument.kind, kind, argument.value)?;
            Ok(Operand { kind, value })
        }
    }
}

// Arguments with one more, of which there are fewer than three so far.
fn with_argument<T: Copy>(arguments: Arguments<T>, operand: Operand<T>) -> Arguments<T>
    requires { arguments.count < 3 }
    ensures { result ≡ record { count = arguments.count + 1; operands = set_operand arguments.count arguments.operands operand } }
{
    let Operands {
        first,
        second,
        third,
    } = arguments.operands;
    let count = arguments.count + 1;
    let operands = match arguments.count {
        0 => Operands {
            first: operand,
            second,
            third,
        },
        1 => Operands {
            first,
            second: operand,
            third,
        },
        _ => Operands {
            first,
            second,
            third: operand,
        },
    };
    Arguments { count, operands }
}

/// Arguments with one more: of a library call, where it is one of the first three, converted to the type of its
/// parameter, if there is one (C11 6.5.2.2p7).
pub(crate) fn passed<V: Values>(
    library: Option<Library>,
    arguments: Arguments<V::Value>,
    argument: Operand<V::Value>,
    values: &mut V,
) -> Result<Arguments<V::Value>, NoMemory>
    requires arguments { ArgumentsMade (V.made values.old) (option_map library_shown library) arguments }
    requires argument { V.made values.old argument.kind argument.value }
    ensures makes { IfOk result (λ v. ArgumentsMade (V.made values.new) (option_map library_shown library) v) }
    ensures shown { IfOk result (λ v. (m : List ℤ) (ts : TypeTrees) (xs : List ℤ) (x : ℤ) → V.serves values.old m → Takes (option_map library_shown library) ts → ArgumentsShow (V.shows values.old m) (option_map library_shown library) arguments xs → V.shows values.old m argument.kind argument.value x → ArgumentsShow (V.shows values.new m) (option_map library_shown library) v (xs ++ passed (parameters_behind (length xs) ts) x ∷ [])) }
    ensures keeps { Keeps V.serves V.has_key V.made V.shows values.old values.new }
    ensures charge { OnOk result (V.cost values.new ≤ V.cost values.old + argument_charge (option_map library_shown library)) }
{
    match library {
        None => Ok(arguments),
        Some(library) => {
            if arguments.count >= 3 {
                return Ok(arguments);
            }
            let operand = in_parameter(library, arguments.count, argument, values)?;
            Ok(with_argument(arguments, operand))
        }
    }
}

// What is asked of the arguments of a library call.
fn library_tests(library: Library) -> NodeTests
    ensures is { tests_of result ≡ library_tests (Some (library_shown library)) }
    ensures asked { (k : kinds.IntKind) → IsFirstKind (Some (library_shown library)) k → IsAskedOf k result }
    ensures charge { (a b : kinds.IntKind) → IsFirstKind (Some (library_shown library)) a → asked_charge result a b ≤ checks_charge (Some (library_shown library)) }
{
    match library {
        Library::AbsoluteIn(kind) => NodeTests::Absolute(kind),
        Library::CopyBytes => NodeTests::Copy,
    }
}

// The steps of what is asked of the arguments of a call.
fn check_arguments<O: WalkSetting, V: Values>(
    out: &O,
    node: u32,
    library: Option<Library>,
    arguments: Arguments<V::Value>,
    values: &mut V,
    state: &mut WalkState<V::Value>,
) -> Result<(), NoMemory>
    requires arguments { ArgumentsMade (V.made values.old) (option_map library_shown library) arguments }
    requires made { IsMade (V.made values.old) (O.setting out.now) state.old }
    ensures made { OnOk result (IsMade (V.made values.new) (O.setting out.now) state.new) }
    ensures events { OnOk result ((f : ExprFormTree) → form_tests (O.setting out.now).typing true f ≡ library_tests (option_map library_shown library) → events_in state.new.steps.items ≡ events_in state.old.steps.items ++ condition_events (O.setting out.now) node true f) }
    ensures stands { OnOk result ((m : List ℤ) (s : Standing) (f : ExprFormTree) (xs : List ℤ) → V.serves values.old m → ArgumentsShow (V.shows values.old m) (option_map library_shown library) arguments xs → form_tests (O.setting out.now).typing true f ≡ library_tests (option_map library_shown library) → Stands (V.shows values.old m) (O.setting out.now) state.old s → Stands (V.shows values.new m) (O.setting out.now) state.new (added (breaks (O.setting out.now) node true f (get_or xs 0 (pos 0)) (get_or xs 1 (pos 0)) (get_or xs 2 (pos 0))) s)) }
    ensures keeps { Keeps V.serves V.has_key V.made V.shows values.old values.new }
    ensures charge { OnOk result (V.cost values.new ≤ V.cost values.old + checks_charge (option_map library_shown library)) }
    ensures cells { OnOk result (state.new.cells.items ≡ state.old.cells.items) }
{
    match library {
        None => Ok(()),
        Some(library) => {
            let tests = library_tests(library);
            violate(out, node, tests, arguments.operands, values, state)?;
            Ok(())
        }
    }
}

// The value of a call of a function that isn't of the library: the outside may have written.
fn outside_number<O: WalkSetting, V: Values>(
    out: &O,
    node: u32,
    callee: &Expr,
    values: &mut V,
    state: &mut WalkState<V::Value>,
) -> Result<V::Value, NoMemory>
    requires keys { AreThere (V.has_key values.old) (O.kinds out.now) }
    requires made { IsMade (V.made values.old) (O.setting out.now) state.old }
    ensures makes { IfOk result (λ v. V.made values.new (number_kind ((O.setting out.now).typing.type_at node)) v) }
    ensures made { OnOk result (IsMade (V.made values.new) (O.setting out.now) state.new) }
    ensures events { OnOk result (events_in state.new.steps.items ≡ events_in state.old.steps.items) }
    ensures follows { IfOk result (λ v. (xs : List ℤ) → Evaluates (V.serves values.old) (V.shows values.old) (V.shows values.new) (O.setting out.now) (λ m x. V.shows values.new m (number_kind ((O.setting out.now).typing.type_at node)) v x) (λ m r k. returned (path_world (O.under out.now m)) node (result_in (called_signature (O.setting out.now).typing (view_expression callee.now))) None xs r k) state.old state.new) }
    ensures keeps { OnOk result (Keeps V.serves V.has_key V.made V.shows values.old values.new) }
    ensures cost { OnOk result (Costs V.cost (length (O.setting out.now).kept) (3 * length (O.setting out.now).kept) values.old values.new (length state.old.cells.items) (length state.new.cells.items)) }
{
    let kind = out.kind_at(node);
    forget(out, values, state)?;
    if out.gives_nothing(callee) {
        let nothing = zero(values, kind)?;
        Ok(nothing)
    } else {
        let number = input_value(out, InputKey::Call(node), kind, values)?;
        Ok(number)
    }
}

// The value of a call of the library (C11 7.22.6.1, 7.24.2.1).
fn library_number<O: WalkSetting, V: Values>(
    out: &O,
    node: u32,
    library: Library,
    arguments: Arguments<V::Value>,
    values: &mut V,
    state: &mut WalkState<V::Value>,
) -> Result<V::Value, NoMemory>
    requires value { IsFirstKind (Some (library_shown library)) (number_kind ((O.setting out.now).typing.type_at node)) }
    requires arguments { ArgumentsMade (V.made values.old) (Some (library_shown library)) arguments }
    requires made { IsMade (V.made values.old) (O.setting out.now) state.old }
    ensures makes { IfOk result (λ v. V.made values.new (number_kind ((O.setting out.now).typing.type_at node)) v) }
    ensures made { OnOk result (IsMade (V.made values.new) (O.setting out.now) state.new) }
    ensures events { OnOk result (events_in state.new.steps.items ≡ events_in state.old.steps.items) }
    ensures follows { IfOk result (λ v. (t : TypeTree) (xs : List ℤ) → Evaluates (λ m. V.serves values.old m × ArgumentsShow (V.shows values.old m) (Some (library_shown library)) arguments xs) (V.shows values.old) (V.shows values.new) (O.setting out.now) (λ m x. V.shows values.new m (number_kind ((O.setting out.now).typing.type_at node)) v x) (λ m r k. returned (path_world (O.under out.now m)) node t (Some (library_shown library)) xs r k) state.old state.new) }
    ensures keeps { OnOk result (Keeps V.serves V.has_key V.made V.shows values.old values.new) }
    ensures cost { OnOk result (Costs V.cost (length (O.setting out.now).kept) (returned_charge (length (O.setting out.now).kept) (Some (library_shown library))) values.old values.new (length state.old.cells.items) (length state.new.cells.items)) }
{
    match library {
        Library::AbsoluteIn(kind) => {
            let number = absolute(values, kind, arguments.operands.first.value)?;
            Ok(number)
        }
        Library::CopyBytes => {
            forget(out, values, state)?;
            Ok(arguments.operands.first.value)
        }
    }
}

// The value of a call that returns: of the library its own, else the number of its key (C11 6.5.2.2, 7.22.6.1,
// 7.24.2.1).
fn returned_number<O: WalkSetting, V: Values>(
    out: &O,
    node: u32,
    callee: &Expr,
    library: Option<Library>,
    arguments: Arguments<V::Value>,
    values: &mut V,
    state: &mut WalkState<V::Value>,
) -> Result<V::Value, NoMemory>
    requires library { option_map library_shown library ≡ called_library (O.setting out.now).typing (view_expression callee.now) }
    requires kinded { number_kind ((O.setting out.now).typing.type_at node) ≡ number_kind (result_in (called_signature (O.setting out.now).typing (view_expression callee.now))) }
    requires arguments { ArgumentsMade (V.made values.old) (option_map library_shown library) arguments }
    requires keys { AreThere (V.has_key values.old) (O.kinds out.now) }
    requires made { IsMade (V.made values.old) (O.setting out.now) state.old }
    ensures makes { IfOk result (λ v. V.made values.new (number_kind ((O.setting out.now).typing.type_at node)) v) }
    ensures made { OnOk result (IsMade (V.made values.new) (O.setting out.now) state.new) }
    ensures events { OnOk result (events_in state.new.steps.items ≡ events_in state.old.steps.items) }
    ensures follows { IfOk result (λ v. (xs : List ℤ) → Evaluates (λ m. V.serves values.old m × ArgumentsShow (V.shows values.old m) (option_map library_shown library) arguments xs) (V.shows values.old) (V.shows values.new) (O.setting out.now) (λ m x. V.shows values.new m (number_kind ((O.setting out.now).typing.type_at node)) v x) (λ m r k. returned (path_world (O.under out.now m)) node (result_in (called_signature (O.setting out.now).typing (view_expression callee.now))) (option_map library_shown library) xs r k) state.old state.new) }
    ensures keeps { OnOk result (Keeps V.serves V.has_key V.made V.shows values.old values.new) }
    ensures cost { OnOk result (Costs V.cost (length (O.setting out.now).kept) (returned_charge (length (O.setting out.now).kept) (option_map library_shown library)) values.old values.new (length state.old.cells.items) (length state.new.cells.items)) }
{
    match library {
        None => outside_number(out, node, callee, values, state),
        Some(library) => library_number(out, node, library, arguments, values, state),
    }
}

// Nothing goes on behind a call that doesn't return; its value is any.
fn never_returned<O: WalkSetting, V: Values>(
    out: &O,
    node: u32,
    values: &mut V,
    state: &mut WalkState<V::Value>,
) -> Result<V::Value, NoMemory>
    requires made { IsMade (V.made values.old) (O.setting out.now) state.old }
    ensures makes { IfOk result (λ v. V.made values.new (number_kind ((O.setting out.now).typing.type_at node)) v) }
    ensures made { OnOk result (IsMade (V.made values.new) (O.setting out.now) state.new) }
    ensures events { OnOk result (events_in state.new.steps.items ≡ events_in state.old.steps.items) }
    ensures follows { IfOk result (λ v. Evaluates (V.serves values.old) (V.shows values.old) (V.shows values.new) (O.setting out.now) (λ m x. V.shows values.new m (number_kind ((O.setting out.now).typing.type_at node)) v x) (λ m r k. Cut []) state.old state.new) }
    ensures keeps { OnOk result (Keeps V.serves V.has_key V.made V.shows values.old values.new) }
    ensures cost { OnOk result (Costs V.cost (length (O.setting out.now).kept) 0 values.old values.new (length state.old.cells.items) (length state.new.cells.items)) }
{
    let none = zero(values, IntKind::Int)?;
    state.guard = none;
    let number = zero(values, out.kind_at(node))?;
    Ok(number)
}

/// The end of a call, once its arguments have been walked: the steps of what is asked of the arguments of a library
/// call; behind a function that is marked as not returning nothing goes on; else the value of the call, in the kind of
/// its node (C11 6.5.2.2).
pub(crate) fn called_number<O: WalkSetting, V: Values>(
    out: &O,
    node: u32,
    callee: &Expr,
    library: Option<Library>,
    arguments: Arguments<V::Value>,
    values: &mut V,
    state: &mut WalkState<V::Value>,
) -> Result<V::Value, NoMemory>
    requires library { option_map library_shown library ≡ called_library (O.setting out.now).typing (view_expression callee.now) }
    requires kinded { number_kind ((O.setting out.now).typing.type_at node) ≡ number_kind (result_in (called_signature (O.setting out.now).typing (view_expression callee.now))) }
    requires arguments { ArgumentsMade (V.made values.old) (option_map library_shown library) arguments }
    requires keys { AreThere (V.has_key values.old) (O.kinds out.now) }
    requires made { IsMade (V.made values.old) (O.setting out.now) state.old }
    ensures makes { IfOk result (λ v. V.made values.new (number_kind ((O.setting out.now).typing.type_at node)) v) }
    ensures made { OnOk result (IsMade (V.made values.new) (O.setting out.now) state.new) }
    ensures events { OnOk result ((es : ExprTrees) → events_in state.new.steps.items ≡ events_in state.old.steps.items ++ condition_events (O.setting out.now) node true (call (view_expression callee.now) es)) }
    ensures follows { IfOk result (λ v. (es : ExprTrees) (xs : List ℤ) → Evaluates (λ m. V.serves values.old m × ArgumentsShow (V.shows values.old m) (option_map library_shown library) arguments xs) (V.shows values.old) (V.shows values.new) (O.setting out.now) (λ m x. V.shows values.new m (number_kind ((O.setting out.now).typing.type_at node)) v x) (λ m r k. call_end (O.setting out.now) (path_world (O.under out.now m)) node (view_expression callee.now) es xs r k) state.old state.new) }
    ensures keeps { OnOk result (Keeps V.serves V.has_key V.made V.shows values.old values.new) }
    ensures cost { OnOk result (Costs V.cost (length (O.setting out.now).kept) (call_charge (length (O.setting out.now).kept) (called_library (O.setting out.now).typing (view_expression callee.now))) values.old values.new (length state.old.cells.items) (length state.new.cells.items)) }
{
    check_arguments(out, node, library, arguments, values, state)?;
    if out.never_returns(callee) {
        let any = never_returned(out, node, values, state)?;
        Ok(any)
    } else {
        let number = returned_number(out, node, callee, library, arguments, values, state)?;
        Ok(number)
    }
}
