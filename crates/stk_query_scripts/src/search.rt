//! The search for a candidate by its number.

ghost use Rattle.std.specs.Prelude.{◌≡◌, ◌≤◌, ◌<◌, [], length, OnOk};
ghost use Rattle.stk_base.specs.Limits.{most_bytes};
ghost use Rattle.stk_type_laws.specs.Orderly.{AreOrderly};
ghost use Rattle.stk_numbers.specs.declared.conditions.Kinds.{Kinds as Taken};
ghost use Rattle.stk_query_scripts.specs.Searches.{IsBehind, HasSearchedUnit};

use crate::scripts::candidate_script;
use stk_base::NoMemory;
use stk_cands::candidates;
use stk_ctype::Names;
use stk_function_env::Setting;
use stk_records::{AskedScript, Cause, ConditionSet, Stop};
use stk_tree::Function;
use stk_units::{UnitVisitor, VisitedUnit, visit_unit};

/// The search for a candidate among those of an input's functions, in the order of their records, clear ones included:
/// how many are still to come before the one that is looked for, and the script of its query for a set of conditions,
/// where it was found.
#[derive(Drop)]
pub struct ScriptSearch {
    pub before: u64,
    pub set: ConditionSet,
    pub script: Option<Vec<u8>>,
}

impl ScriptSearch {
    /// Before the first candidate. Candidates are counted from 1.
    pub fn new(asked: AskedScript) -> ScriptSearch
        requires { 1 ≤ asked.number }
        ensures set { result.set ≡ asked.set }
        ensures behind { (without : Taken) → IsBehind without asked.number [] result }
    {
        ScriptSearch {
            before: asked.number - 1,
            set: asked.set,
            script: None,
        }
    }
}

impl UnitVisitor<(), ()> for ScriptSearch {
    ghost use Rattle.stk_query_scripts.specs.Searches.{LeavesSearch, JudgesSearch};

    ghost ready = { λ _. Unit {0} };

    ghost leaves = { LeavesSearch };

    ghost judges = { JudgesSearch };

    fn leave_out(
        &mut self,
        unit: &VisitedUnit,
        cause: Cause,
        out: &mut (),
        asked: &mut (),
    ) -> Result<(), Stop> {
        let _ = unit;
        let _ = cause;
        let _ = out;
        let _ = asked;
        Ok(())
    }

    fn judge(
        &mut self,
        unit: &VisitedUnit,
        setting: &Setting,
        f: &Function,
        out: &mut (),
        asked: &mut (),
    ) -> Result<(), Stop> {
        let _ = out;
        let _ = asked;
        if self.script.is_some() {
            return Ok(());
        }
        let list = candidates(unit.alloc, setting.types(), f)?;
        let count = list.len() as u64;
        if count <= self.before {
            self.before -= count;
            return Ok(());
        }
        let at = self.before as usize;
        let text = candidate_script(unit.alloc, setting, f, list.as_slice(), at, self.set)?;
        self.script = Some(text);
        Ok(())
    }
}

/// Goes on over a unit of the input. The names before it are orderly, as units leave them (C11 6.7p7, 6.7.2.1), and
/// become those that it leaves in force. The only refusal is want of memory, after which the search can't go on.
pub fn search_unit(
    unit: &VisitedUnit,
    names: &mut Names,
    search: &mut ScriptSearch,
) -> Result<(), NoMemory>
    requires some { 0 < length unit.now.tokens.now }
    requires few { length unit.now.tokens.now ≤ most_bytes }
    requires names { AreOrderly names.old }
    ensures searched { OnOk result (HasSearchedUnit unit.now.input.now unit.now.without unit.now.mark names.old unit.now.body unit.now.tokens.now names.new search.old search.new) }
    ensures orderly { OnOk result (AreOrderly names.new) }
{
    let mut nowhere = ();
    let mut nobody = ();
    match visit_unit(unit, names, search, &mut nowhere, &mut nobody) {
        Ok(()) => Ok(()),
        Err(_) => Err(NoMemory),
    }
}
