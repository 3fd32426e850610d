//! The definition of the function that a script names, looked for among the units of its source.

ghost use Rattle.std.specs.Prelude.{◌≡◌, ◌↔◌, ◌≤◌, ◌<◌, IsTrue, None, OnOk, length};
ghost use Rattle.stk_base.specs.Limits.{most_bytes};
ghost use Rattle.stk_tree.specs.View.{view_declarator};
ghost use Rattle.stk_records.specs.Kinds.{no_kinds};
ghost use Rattle.stk_type_laws.specs.Orderly.{AreOrderly};
ghost use Rattle.stk_spelling.specs.Claims.{declarator_name};
ghost use Rattle.stk_replay_input.specs.Searches.{answer_in, HasSearchedUnit};

use crate::Unreplayed;
use crate::named::function_replay;
use stk_base::NoMemory;
use stk_ctype::Names;
use stk_function_env::Setting;
use stk_records::{Cause, Stop};
use stk_replay_script::Script;
use stk_tree::{Declr, Function};
use stk_units::{UnitVisitor, VisitedUnit, visit_unit};

/// The search for the first accepted definition of the function that a script names: the answer to the script, or
/// nothing where no unit so far defines a function of this name.
#[derive(Drop)]
pub(crate) struct FunctionSearch<'a> {
    pub(crate) script: &'a Script,
    pub(crate) answer: Option<Result<Vec<u8>, Unreplayed>>,
}

// Whether a declarator has this name.
fn is_named(bytes: &[u8], d: &Declr, name: &[u8]) -> bool
    ensures { IsTrue result ↔ declarator_name bytes.now (view_declarator d.now) ≡ name.now }
{
    match d.name {
        Some(at) => at.text(bytes) == name,
        None => name.is_empty(),
    }
}

impl UnitVisitor<(), ()> for FunctionSearch<'_> {
    ghost use Rattle.std.specs.Prelude.{◌≡◌, None};
    ghost use Rattle.stk_replay_input.specs.Searches.{LeavesSearch, JudgesSearch};

    ghost ready = { λ search. search.answer ≡ None };

    ghost leaves = { LeavesSearch };

    ghost judges = { JudgesSearch };

    fn leave_out(
        &mut self,
        unit: &VisitedUnit,
        cause: Cause,
        out: &mut (),
        asked: &mut (),
    ) -> Result<(), Stop> {
        let _ = unit;
        let _ = cause;
        let _ = out;
        let _ = asked;
        Ok(())
    }

    fn judge(
        &mut self,
        unit: &VisitedUnit,
        setting: &Setting,
        f: &Function,
        out: &mut (),
        asked: &mut (),
    ) -> Result<(), Stop> {
        let _ = out;
        let _ = asked;
        let script = self.script;
        if is_named(unit.input.bytes(), &f.declr, script.function.as_slice()) {
            let answer = function_replay(unit.alloc, unit.input, setting, f, script);
            self.answer = Some(answer);
        }
        Ok(())
    }
}

/// Goes on over a unit of the source, where no unit before it defines a function of this name. The names before it are
/// orderly, as units leave them (C11 6.7p7, 6.7.2.1), and become those that it leaves in force.
pub(crate) fn search_unit(
    unit: &VisitedUnit,
    names: &mut Names,
    search: &mut FunctionSearch,
) -> Result<(), NoMemory>
    requires none { search.old.answer ≡ None }
    requires whole { unit.now.without ≡ no_kinds }
    requires some { 0 < length unit.now.tokens.now }
    requires few { length unit.now.tokens.now ≤ most_bytes }
    requires names { AreOrderly names.old }
    ensures searched { OnOk result (HasSearchedUnit unit.now.input.now unit.now.mark names.old unit.now.body unit.now.tokens.now names.new search.old search.new) }
    ensures orderly { OnOk result (AreOrderly names.new) }
{
    let mut nowhere = ();
    let mut nobody = ();
    match visit_unit(unit, names, search, &mut nowhere, &mut nobody) {
        Ok(()) => Ok(()),
        Err(_) => Err(NoMemory),
    }
}

/// The answer to the script behind all units: where none of them defines a function of its name, it names no execution.
pub(crate) fn answer_of(search: FunctionSearch) -> Result<Vec<u8>, Unreplayed>
    ensures { result ≡ answer_in search.entry.answer }
{
    let FunctionSearch { answer, .. } = search;
    match answer {
        Some(answer) => answer,
        None => Err(Unreplayed::BadScript),
    }
}
