//! The path run of an input map.

ghost use Rattle.std.specs.Prelude.{◌≡◌, IfOk};
ghost use Rattle.stk_tree.specs.View.{view_function};
ghost use Rattle.stk_meaning.specs.Maps.{IsValid};
ghost use Rattle.stk_meaning.specs.Paths.{path};
ghost use Rattle.stk_path_runs.specs.FunctionTables.{AreTablesOf};
ghost use Rattle.stk_wide_judge.specs.Wide.{asked_in};

use crate::JudgedFunction;
use stk_base::NoMemory;
use stk_first_maps::words_of;
use stk_meaning::Entry;
use stk_numbers::Inputs;
use stk_path_runs::path_run;

/// The trace of the path run of a valid input map.
pub(crate) fn trace_of(function: &JudgedFunction, start: &Inputs) -> Result<Vec<Entry>, NoMemory>
    requires { AreTablesOf (view_function function.now.f.now) function.now.tables.now }
    ensures { let a = asked_in function.now.tables.now (view_function function.now.f.now) in IsValid a.typing a.without a.tree start.now.numbers → IfOk result (λ trace. trace.items ≡ path a.typing a.without a.tree start.now.numbers) }
{
    let keys = function.tables.setting().keys();
    let words = words_of(function.alloc, keys, start.numbers.as_slice())?;
    path_run(
        function.alloc,
        function.tables,
        function.f,
        words.as_slice(),
    )
}
