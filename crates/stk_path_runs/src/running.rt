//! The path run of a function (Wang, Zeldovich, Kaashoek, Solar-Lezama, SOSP 2013, section 4.3).

ghost use Rattle.std.specs.Prelude.{◌≡◌, IfOk};
ghost use Rattle.stk_tree.specs.View.{view_function};
ghost use Rattle.stk_numbers.specs.declared.conditions.Kinds as kinds;
ghost use Rattle.stk_meaning.specs.Typings as typings;
ghost use Rattle.stk_meaning.specs.Keys.{body_of, keys_of, setting_of};
ghost use Rattle.stk_meaning.specs.Paths.{path};
ghost use Rattle.stk_eval_expr.specs.Loops.{EachLoop};
ghost use Rattle.stk_function_env.specs.Settings.{setting_in};
ghost use Rattle.stk_path_runs.specs.Rows.{Knows};

use crate::kept::nothing_kept;
use crate::starting::start_registers;
use crate::{FunctionTables, MappedFunction};
use std::alloc::Global;
use stk_base::NoMemory;
use stk_exec_stmt::run_body;
use stk_meaning::Entry;
use stk_operators::Word;
use stk_tree::Function;

/// The trace of the path run of a function for these numbers of its keys, in order: what it violates, enters and sees.
/// The tables are those of the function, and know its loops.
pub fn path_run(
    alloc: Global,
    tables: &FunctionTables,
    f: &Function,
    numbers: &[Word],
) -> Result<Vec<Entry>, NoMemory>
    requires { EachLoop (Knows (setting_in tables.now.places) tables.now.places.keys tables.now.rows) (body_of (view_function f.now)) }
    ensures { (ty : typings.Typing) → (without : kinds.Kinds) → setting_in tables.now.places ≡ setting_of ty without (view_function f.now) → tables.now.places.keys ≡ keys_of ty without (view_function f.now) → IfOk result (λ entries. entries.items ≡ path ty without (view_function f.now) numbers.now) }
{
    let out = MappedFunction {
        tables,
        numbers,
        alloc,
    };
    let registers = start_registers(alloc, &out, f)?;
    let kept = nothing_kept(alloc, tables.setting().kept().len())?;
    run_body(alloc, &out, &f.body, registers, kept)
}
