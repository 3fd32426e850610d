//! The keys of a function.

ghost use Rattle.std.specs.Prelude.{◌≡◌, ◌++◌, [], ◌∷◌, if◌then◌else◌, OnOk, IfOk, map, None};
ghost use Rattle.std.specs.Option.{option_map};
ghost use Rattle.stk_ctype.specs.Types.{type_of};
ghost use Rattle.stk_tree.specs.View.{view_expression, view_expression_form, view_statement_form, view_parameter, view_initialiser, parameters, maybe_initialiser};
ghost use Rattle.stk_function_types.specs.Nodes.{typing_in};
ghost use Rattle.stk_meaning.specs.Typings.{number_kind};
ghost use Rattle.stk_meaning.specs.Places.{target_at};
ghost use Rattle.stk_meaning.specs.Keys.{load_key, parameter_declarator, parameter_info, memory_info, number_info, address_info, is_loaded, is_node, mention_keys, name_keys, result_keys, form_keys, unset_keys, declarator_keys, loop_keys, visit_keys};
ghost use Rattle.stk_meaning.specs.Libraries.{called_library, called_signature, result_in};
ghost use Rattle.stk_function_types.specs.Visits.{marked_visit, role_in, use_in};
ghost use Rattle.stk_function_types.specs.Gathered.{given, gathered};
ghost use Rattle.stk_function_env.specs.Infos.{info_in, key_in};
ghost use Rattle.stk_function_env.specs.Listed.{is_register_parameter, register_parameter_keys, memory_parameter_keys, key_kept, keys_kept};
ghost use Rattle.stk_function_env.specs.Settings.{setting_in};
ghost use Rattle.stk_operators.specs.Targets.{target_shown};

use crate::calls::{called_library, called_signature};
use crate::changes::assigned;
use crate::mentions::names_outside;
use crate::registers::fits_register;
use crate::{Key, KeyInfo, Setting};
use std::alloc::Global;
use stk_base::{NoMemory, Span};
use stk_ctype::CType;
use stk_function_types::{FunctionTypes, Role, Use, Visit, VisitForm};
use stk_numbers::IntKind;
use stk_operators::{Target, number_kind};
use stk_tree::{Expr, ExprForm, Init, Param, UnaryOp};
use stk_type_rules::{is_scalar, is_void};

// Puts a key behind the others.
fn put(info: KeyInfo, out: &mut Vec<KeyInfo>) -> Result<(), NoMemory>
    ensures { OnOk result (map info_in out.new.items ≡ map info_in out.old.items ++ info_in info ∷ []) }
{
    out.push(info)?;
    Ok(())
}

// The address of an object of a node's type.
fn address_info(types: &FunctionTypes, node: u32, name: Option<Span>) -> KeyInfo
    ensures { info_in result ≡ address_info (typing_in types.now) node name }
{
    let size = types.size_of(types.type_at(node)).unwrap_or(1);
    KeyInfo {
        key: Key::Address(node),
        kind: IntKind::ULong,
        size,
        name,
    }
}

// A number of a type that isn't an address of its own.
fn number_info(types: &FunctionTypes, key: Key, ty: &CType, name: Option<Span>) -> KeyInfo
    ensures { info_in result ≡ number_info (typing_in types.now) (key_in key) (type_of ty.now) name }
{
    // The contract alone reads the types.
    let _ = types;
    KeyInfo {
        key,
        kind: number_kind(ty),
        size: 0,
        name,
    }
}

// Whether a place has a load: its number is read, and it isn't a register (C11 6.3.2.1p3).
fn is_loaded(ty: &CType, used: Use, place: Target) -> bool
    ensures { result ≡ is_loaded (type_of ty.now) (use_in used) (target_shown place) }
{
    match used {
        Use::Read => match place {
            Target::Register(_) => false,
            Target::Kept(_) | Target::Object(_) | Target::Unnamed => is_scalar(ty),
        },
        Use::Accessed | Use::Taken => false,
    }
}

// Puts the load of a place that is used so.
fn load_key(
    types: &FunctionTypes,
    node: u32,
    used: Use,
    place: Target,
    out: &mut Vec<KeyInfo>,
) -> Result<(), NoMemory>
    ensures { OnOk result (map info_in out.new.items ≡ map info_in out.old.items ++ (if is_loaded ((typing_in types.now).type_at node) (use_in used) (target_shown place) then number_info (typing_in types.now) (load_key node) ((typing_in types.now).type_at node) None ∷ [] else [])) }
{
    let ty = types.type_at(node);
    if is_loaded(ty, used, place) {
        put(number_info(types, Key::Load(node), ty, None), out)
    } else {
        Ok(())
    }
}

// Whether a mention of a name is the first.
fn is_node(node: u32, first: Option<u32>) -> bool
    ensures { result ≡ is_node node first }
{
    match first {
        None => false,
        Some(j) => node == j,
    }
}

// Puts the address of an object of file scope that is mentioned here first.
fn mention_key(
    setting: &Setting,
    node: u32,
    at: Span,
    out: &mut Vec<KeyInfo>,
) -> Result<(), NoMemory>
    ensures { OnOk result (map info_in out.new.items ≡ map info_in out.old.items ++ mention_keys (setting_in setting.now) node at) }
{
    let types = setting.types();
    let first = setting.mentioned(at.text(types.bytes()));
    if names_outside(types, node) && is_node(node, first) {
        put(address_info(types, node, Some(at)), out)
    } else {
        Ok(())
    }
}

// Puts the keys of a name.
fn name_keys(
    setting: &Setting,
    node: u32,
    role: Role,
    at: Span,
    out: &mut Vec<KeyInfo>,
) -> Result<(), NoMemory>
    ensures { OnOk result (map info_in out.new.items ≡ map info_in out.old.items ++ name_keys (setting_in setting.now) node (role_in role) at) }
{
    if setting.types().constant(node).is_some() {
        return Ok(());
    }
    mention_key(setting, node, at, out)?;
    let place = setting.target_at(setting.object_named(node, at));
    load_key(setting.types(), node, role.use_of, place, out)
}

// Puts the result of a call of no function of the library.
fn result_key(
    types: &FunctionTypes,
    node: u32,
    callee: &Expr,
    out: &mut Vec<KeyInfo>,
) -> Result<(), NoMemory>
    ensures { OnOk result (map info_in out.new.items ≡ map info_in out.old.items ++ result_keys (typing_in types.now) node (result_in (called_signature (typing_in types.now) (view_expression callee.now))) (called_library (typing_in types.now) (view_expression callee.now))) }
{
    if called_library(types, callee).is_some() {
        return Ok(());
    }
    match called_signature(types, callee) {
        None => Ok(()),
        Some(f) => {
            if is_void(&f.result) {
                Ok(())
            } else {
                put(number_info(types, Key::Call(node), &f.result, None), out)
            }
        }
    }
}

// Puts the keys of a form at a node.
fn form_keys(
    setting: &Setting,
    node: u32,
    role: Role,
    f: &ExprForm,
    out: &mut Vec<KeyInfo>,
) -> Result<(), NoMemory>
    ensures { OnOk result (map info_in out.new.items ≡ map info_in out.old.items ++ form_keys (setting_in setting.now) node (role_in role) (view_expression_form f.now)) }
{
    match f {
        ExprForm::Name(at) => name_keys(setting, node, role, *at, out),
        ExprForm::Text(_) => put(address_info(setting.types(), node, None), out),
        ExprForm::Index(_, _)
        | ExprForm::Dot(_, _)
        | ExprForm::Arrow(_, _)
        | ExprForm::Unary(UnaryOp::Deref, _) => {
            let place = setting.form_target(node, f);
            load_key(setting.types(), node, role.use_of, place, out)
        }
        ExprForm::Call(callee, _) => result_key(setting.types(), node, callee.get(), out),
        ExprForm::Unary(
            UnaryOp::Address | UnaryOp::Plus | UnaryOp::Minus | UnaryOp::Flip | UnaryOp::Not,
            _,
        )
        | ExprForm::Number(_)
        | ExprForm::Character(_)
        | ExprForm::Paren(_)
        | ExprForm::Step(_, _)
        | ExprForm::SizeExpr(_)
        | ExprForm::SizeName(_)
        | ExprForm::Cast(_, _)
        | ExprForm::Binary(_, _, _)
        | ExprForm::Choice(_, _, _)
        | ExprForm::Assign(_, _, _) => Ok(()),
    }
}

// Puts the key of a register without initialiser.
fn unset_key(
    types: &FunctionTypes,
    node: u32,
    name: Option<Span>,
    init: &Option<Init>,
    out: &mut Vec<KeyInfo>,
) -> Result<(), NoMemory>
    ensures { OnOk result (map info_in out.new.items ≡ map info_in out.old.items ++ unset_keys (typing_in types.now) node name (maybe_initialiser (option_map view_initialiser init.now))) }
{
    match init {
        Some(_) => Ok(()),
        None => put(
            number_info(types, Key::Unset(node), types.type_at(node), name),
            out,
        ),
    }
}

// Puts the key of a declarator.
fn declarator_keys(
    setting: &Setting,
    node: u32,
    name: Option<Span>,
    init: &Option<Init>,
    out: &mut Vec<KeyInfo>,
) -> Result<(), NoMemory>
    ensures { OnOk result (map info_in out.new.items ≡ map info_in out.old.items ++ declarator_keys (setting_in setting.now) node name (maybe_initialiser (option_map view_initialiser init.now)) (target_at (setting_in setting.now) node)) }
{
    match setting.target_at(node) {
        Target::Register(_) => unset_key(setting.types(), node, name, init, out),
        Target::Kept(_) | Target::Object(_) | Target::Unnamed => {
            put(address_info(setting.types(), node, name), out)
        }
    }
}

// Puts the registers that a loop sets first.
fn loop_keys(
    setting: &Setting,
    node: u32,
    list: &[u32],
    out: &mut Vec<KeyInfo>,
) -> Result<(), NoMemory>
    ensures { OnOk result (map info_in out.new.items ≡ map info_in out.old.items ++ loop_keys (setting_in setting.now) node list.now) }
{
    let types = setting.types();
    for j in list {
        put(
            number_info(types, Key::Loop(node, *j), types.type_at(*j), None),
            out,
        )?;
    }
    Ok(())
}

// Puts the keys of a visit that is evaluated.
fn visit_keys(
    alloc: Global,
    setting: &Setting,
    visit: &Visit,
    out: &mut Vec<KeyInfo>,
) -> Result<(), NoMemory>
    ensures { OnOk result (map info_in out.new.items ≡ map info_in out.old.items ++ given (visit_keys (setting_in setting.now)) (marked_visit visit.now)) }
{
    if !visit.is_evaluated {
        return Ok(());
    }
    match visit.form {
        VisitForm::Expression(role, f) => form_keys(setting, visit.node, role, f, out),
        VisitForm::Declarator(_, name, init) => {
            declarator_keys(setting, visit.node, name, init, out)
        }
        VisitForm::Statement(_, f) => {
            let list = assigned(alloc, setting, f)?;
            loop_keys(setting, visit.node, list.as_slice(), out)
        }
        VisitForm::Section(_) => Ok(()),
    }
}

// Puts the keys of the parameters that are registers.
fn register_parameter_keys(
    types: &FunctionTypes,
    list: &[Param],
    out: &mut Vec<KeyInfo>,
) -> Result<(), NoMemory>
    ensures { OnOk result (map info_in out.new.items ≡ map info_in out.old.items ++ register_parameter_keys (typing_in types.now) (parameters (map view_parameter list.now))) }
{
    for p in list {
        register_parameter_key(types, p, out)?;
    }
    Ok(())
}

// Puts the key of a parameter that is a register.
fn register_parameter_key(
    types: &FunctionTypes,
    p: &Param,
    out: &mut Vec<KeyInfo>,
) -> Result<(), NoMemory>
    ensures { OnOk result (map info_in out.new.items ≡ map info_in out.old.items ++ (if is_register_parameter (typing_in types.now) (view_parameter p.now) then parameter_info (typing_in types.now) (parameter_declarator (view_parameter p.now)) ∷ [] else [])) }
{
    let node = p.declr.node.number;
    if fits_register(types, node) {
        put(
            number_info(
                types,
                Key::Parameter(node),
                types.type_at(node),
                p.declr.name,
            ),
            out,
        )
    } else {
        Ok(())
    }
}

// Puts the keys of the parameters in memory.
fn memory_parameter_keys(
    types: &FunctionTypes,
    list: &[Param],
    out: &mut Vec<KeyInfo>,
) -> Result<(), NoMemory>
    ensures { OnOk result (map info_in out.new.items ≡ map info_in out.old.items ++ memory_parameter_keys (typing_in types.now) (parameters (map view_parameter list.now))) }
{
    for p in list {
        memory_parameter_key(types, p, out)?;
    }
    Ok(())
}

// Puts the key of a parameter in memory.
fn memory_parameter_key(
    types: &FunctionTypes,
    p: &Param,
    out: &mut Vec<KeyInfo>,
) -> Result<(), NoMemory>
    ensures { OnOk result (map info_in out.new.items ≡ map info_in out.old.items ++ (if is_register_parameter (typing_in types.now) (view_parameter p.now) then [] else memory_info (typing_in types.now) (parameter_declarator (view_parameter p.now)) ∷ [])) }
{
    let node = p.declr.node.number;
    if fits_register(types, node) {
        Ok(())
    } else {
        put(address_info(types, node, p.declr.name), out)
    }
}

/// The keys of a function with these parameters and visits, in order.
pub(crate) fn keys_among(
    alloc: Global,
    setting: &Setting,
    list: &[Param],
    visits: &[Visit],
) -> Result<Vec<KeyInfo>, NoMemory>
    ensures { IfOk result (λ out. map info_in out.items ≡ register_parameter_keys (typing_in setting.now.types) (parameters (map view_parameter list.now)) ++ (memory_parameter_keys (typing_in setting.now.types) (parameters (map view_parameter list.now)) ++ gathered (visit_keys (setting_in setting.now)) (map marked_visit visits.now))) }
{
    let mut out = Vec::new(alloc);
    register_parameter_keys(setting.types(), list, &mut out)?;
    memory_parameter_keys(setting.types(), list, &mut out)?;
    for visit in visits {
        visit_keys(alloc, setting, visit, &mut out)?;
    }
    Ok(out)
}

// Notes the object whose address a key is, where it has a name and a scalar type.
fn key_kept(types: &FunctionTypes, info: &KeyInfo, out: &mut Vec<u32>) -> Result<(), NoMemory>
    ensures { OnOk result (out.new.items ≡ out.old.items ++ key_kept (typing_in types.now) (info_in info.now).name (info_in info.now).key) }
{
    match info.key {
        Key::Address(node) => {
            if info.name.is_some() && is_scalar(types.type_at(node)) {
                out.push(node)?;
            }
            Ok(())
        }
        Key::Parameter(_) | Key::Unset(_) | Key::Load(_) | Key::Call(_) | Key::Loop(_, _) => Ok(()),
    }
}

/// The objects with a name and a scalar type among keys, each by the node of its address, in order.
pub(crate) fn kept_among(
    alloc: Global,
    types: &FunctionTypes,
    keys: &[KeyInfo],
) -> Result<Vec<u32>, NoMemory>
    ensures { IfOk result (λ out. out.items ≡ keys_kept (typing_in types.now) (map info_in keys.now)) }
{
    let mut out = Vec::new(alloc);
    for info in keys {
        key_kept(types, info, &mut out)?;
    }
    Ok(out)
}
