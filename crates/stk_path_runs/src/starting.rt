//! The registers that a path run starts from.

ghost use Rattle.std.specs.Prelude.{◌≡◌, ℤ, ℕ, IfOk, map, pos, replicate, if◌then◌else◌, set};
ghost use Rattle.stk_tree.specs.View.{view_function, view_parameter, parameters};
ghost use Rattle.stk_meaning.specs.Keys.{parameter_key, parameter_declarator};
ghost use Rattle.stk_meaning.specs.Typings.{declarator_node};
ghost use Rattle.stk_meaning.specs.Paths.{number_under, start_registers};
ghost use Rattle.stk_function_types.specs.Nodes.{typing_in};
ghost use Rattle.stk_function_env.specs.Listed.{is_register_parameter};
ghost use Rattle.stk_path_runs.specs.Starting.{parameters_set};

use crate::mapped::MappedFunction;
use std::alloc::Global;
use stk_base::NoMemory;
use stk_eval_expr::put_word;
use stk_function_env::fits_register;
use stk_operators::Word;
use stk_tree::{Function, Param};

// So many registers with 0 in them.
fn zeros(alloc: Global, count: u32) -> Result<Vec<Word>, NoMemory>
    ensures { IfOk result (λ out. out.items ≡ replicate count (pos 0)) }
{
    let mut out = Vec::new(alloc);
    for _turn in 0..count {
        out.push(Word::bit(false))?;
    }
    Ok(out)
}

// Sets the register of a parameter to the number of its key, where it is a register.
fn set_parameter(out: &MappedFunction, p: &Param, registers: &mut Vec<Word>)
    ensures { registers.new.items ≡ (if is_register_parameter (typing_in out.now.tables.now.places.types) (view_parameter p.now) then set registers.old.items (declarator_node (parameter_declarator (view_parameter p.now))) (number_under out.now.tables.now.places.keys out.now.numbers.now (parameter_key (declarator_node (parameter_declarator (view_parameter p.now))))) else registers.old.items) }
{
    let node = p.declr.node.number;
    if fits_register(out.tables.setting().types(), node) {
        let number = out.parameter_number(node);
        put_word(registers, node as usize, number);
    }
}

// Sets the registers of parameters to the numbers of their keys.
fn set_parameters(out: &MappedFunction, list: &[Param], registers: &mut Vec<Word>)
    ensures { registers.new.items ≡ parameters_set (typing_in out.now.tables.now.places.types) (λ k. number_under out.now.tables.now.places.keys out.now.numbers.now (parameter_key k)) (parameters (map view_parameter list.now)) registers.old.items }
{
    for p in list {
        set_parameter(out, p, registers);
    }
}

/// The registers at the start of a path run, by the numbers of their declarators, all of which are below the number of
/// the body: those of parameters have their numbers of the input map, the others 0.
pub fn start_registers(
    alloc: Global,
    out: &MappedFunction,
    f: &Function,
) -> Result<Vec<Word>, NoMemory>
    ensures { IfOk result (λ registers. registers.items ≡ start_registers (typing_in out.now.tables.now.places.types) (view_function f.now) (λ k. number_under out.now.tables.now.places.keys out.now.numbers.now (parameter_key k))) }
{
    let mut registers = zeros(alloc, f.body.node.number)?;
    set_parameters(out, f.declr.parameters(), &mut registers);
    Ok(registers)
}
