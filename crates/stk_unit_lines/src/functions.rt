//! The lines of a function's findings.

ghost use Rattle.std.specs.Prelude.{◌≡◌, ◌≤◌, ◌<◌, ◌^◌, Err, IfOk, List, OnErr, length, map, true};
ghost use Rattle.stk_base.specs.Causes.{Rose};
ghost use Rattle.stk_tree.specs.View.{view_function, view_unit};
ghost use Rattle.stk_meaning.specs.declared.finding.Finding.{Finding};
ghost use Rattle.stk_meaning.specs.Keys.{function_visits};
ghost use Rattle.stk_meaning.specs.Weights as weights;
ghost use Rattle.stk_run_laws.specs.Visits.{IsNumbered};
ghost use Rattle.stk_meaning.specs.Findings.{AreLawful};
ghost use Rattle.stk_function_types.specs.Nodes.{typing_in};
ghost use Rattle.stk_function_types.specs.Visits.{marked_visit, marked_visits};
ghost use Rattle.stk_findings.specs.Searched.{subject_searched, IsSearchable};
ghost use Rattle.stk_units.specs.Units.{IsSettingOfFunction};
ghost use Rattle.stk_spelling.specs.Placed.{placed_in};
ghost use Rattle.stk_units.specs.Known.{IsTypedFunction};
ghost use Rattle.stk_unit_lines.specs.Parts.{IsJudged, AreFindingLines};
ghost use Rattle.stk_unit_lines.specs.Wrote.{Wrote, HasStopped};

use crate::LintedFile;
use crate::lines::{Told, write_finding};
use stk_base::Sink;
use stk_cands::{candidates, conditions};
use stk_findings::{FunctionTables, Judge, Queries, SearchedFunction, SiftedMaps};
use stk_function_env::Setting;
use stk_function_types::function_visits;
use stk_query::{Decider, MOST_BUDGET};
use stk_records::{Counts, Stop};
use stk_spelling::{key_texts, names_of};
use stk_tree::Function;
use stk_units::{one_function, with_finding};

// Judges the candidates of a function, in order, and writes the record of each as soon as it is judged.
fn write_findings<J: Judge, K: Sink, D: Decider>(
    file: &LintedFile,
    told: &Told,
    searched: &SearchedFunction,
    judge: &mut J,
    out: &mut K,
    decider: &mut D,
) -> Result<Counts, Stop>
    requires input { told.now.input.now ≡ told.now.types.now.bytes }
    requires visits { map marked_visit told.now.visits.now ≡ marked_visits true (function_visits (typing_in told.now.types.now) (view_function told.now.function.now)) }
    requires ready { J.ready judge.old searched.now }
    requires searched { IsSearchable searched.now }
    requires few { length searched.now.candidates.now < 2 ^ 32 }
    ensures written { IfOk result (Wrote (AreFindingLines (subject_searched searched.now) (placed_in told.now.types.now) (typing_in told.now.types.now) (view_function told.now.function.now) told.now.keys.now searched.now.candidates.now) file.now.options (K.taken out.old) (K.taken out.new) (D.given_up decider.old) (D.given_up decider.new)) }
    ensures stopped { (all : List Finding) → AreLawful (subject_searched searched.now) searched.now.candidates.now all → OnErr result (HasStopped (AreFindingLines (subject_searched searched.now) (placed_in told.now.types.now) (typing_in told.now.types.now) (view_function told.now.function.now) told.now.keys.now searched.now.candidates.now) file.now.options (K.taken out.old) (K.taken out.new)) }
    ensures later { K.faults out.old ≤ K.faults out.new }
    ensures fault { result ≡ Err Stop.WriteFault → Rose (K.faults out.old) (K.faults out.new) }
    ensures given_up { D.given_up decider.old ≤ D.given_up decider.new }
{
    let list = searched.candidates;
    let mut counts = one_function();
    for at in 0..list.len() {
        let candidate = list[at];
        let finding = judge.finding(searched, decider, at as u32, candidate)?;
        write_finding(file, told, candidate, &finding, out)?;
        counts = with_finding(counts, &finding);
    }
    Ok(counts)
}

// The same of a function that is searched. Where it has no candidate nothing is run.
fn write_searched<K: Sink, D: Decider>(
    file: &LintedFile,
    told: &Told,
    searched: &SearchedFunction,
    out: &mut K,
    decider: &mut D,
) -> Result<Counts, Stop>
    requires input { told.now.input.now ≡ told.now.types.now.bytes }
    requires visits { map marked_visit told.now.visits.now ≡ marked_visits true (function_visits (typing_in told.now.types.now) (view_function told.now.function.now)) }
    requires searched { IsSearchable searched.now }
    ensures written { IfOk result (Wrote (AreFindingLines (subject_searched searched.now) (placed_in told.now.types.now) (typing_in told.now.types.now) (view_function told.now.function.now) told.now.keys.now searched.now.candidates.now) file.now.options (K.taken out.old) (K.taken out.new) (D.given_up decider.old) (D.given_up decider.new)) }
    ensures stopped { (all : List Finding) → AreLawful (subject_searched searched.now) searched.now.candidates.now all → OnErr result (HasStopped (AreFindingLines (subject_searched searched.now) (placed_in told.now.types.now) (typing_in told.now.types.now) (view_function told.now.function.now) told.now.keys.now searched.now.candidates.now) file.now.options (K.taken out.old) (K.taken out.new)) }
    ensures later { K.faults out.old ≤ K.faults out.new }
    ensures fault { result ≡ Err Stop.WriteFault → Rose (K.faults out.old) (K.faults out.new) }
    ensures given_up { D.given_up decider.old ≤ D.given_up decider.new }
{
    if searched.candidates.is_empty() {
        return Ok(one_function());
    }
    if searched.is_narrow() {
        let mut judge = SiftedMaps::new(file.alloc, searched)?;
        return write_findings(file, told, searched, &mut judge, out, decider);
    }
    let mut judge = Queries::new(file.alloc, searched)?;
    write_findings(file, told, searched, &mut judge, out, decider)
}

/// Judges a function whose setting this is, and writes the records of its findings. The answer is what it counts for.
pub(crate) fn write_judged<K: Sink, D: Decider>(
    file: &LintedFile,
    setting: &Setting,
    f: &Function,
    out: &mut K,
    decider: &mut D,
) -> Result<Counts, Stop>
    requires input { file.now.input.now ≡ setting.now.types.bytes }
    requires of { IsSettingOfFunction (view_function f.now) setting.now }
    requires numbered { IsNumbered (typing_in setting.now.types) (view_function f.now) }
    requires typed { IsTypedFunction (typing_in setting.now.types) setting.now.without (view_function f.now) }
    requires light { weights.weight (typing_in setting.now.types) setting.now.without (view_function f.now) ≤ weights.most_weight }
    requires least { 1 ≤ file.now.options.budget }
    requires most { file.now.options.budget ≤ MOST_BUDGET }
    ensures written { IfOk result (Wrote (IsJudged setting.now.types.bytes setting.now.without file.now.options.budget setting.now.types.entries (view_unit setting.now.types.unit) (view_function f.now)) file.now.options (K.taken out.old) (K.taken out.new) (D.given_up decider.old) (D.given_up decider.new)) }
    ensures stopped { OnErr result (HasStopped (IsJudged setting.now.types.bytes setting.now.without file.now.options.budget setting.now.types.entries (view_unit setting.now.types.unit) (view_function f.now)) file.now.options (K.taken out.old) (K.taken out.new)) }
    ensures later { K.faults out.old ≤ K.faults out.new }
    ensures fault { result ≡ Err Stop.WriteFault → Rose (K.faults out.old) (K.faults out.new) }
    ensures given_up { D.given_up decider.old ≤ D.given_up decider.new }
{
    let alloc = file.alloc;
    let types = setting.types();
    let list = candidates(alloc, types, f)?;
    let all = conditions(alloc, types, setting.without(), f)?;
    let names = names_of(alloc, types, f)?;
    let keys = key_texts(alloc, file.input, types, names.as_slice(), setting.keys())?;
    let visits = function_visits(alloc, types, f)?;
    let tables = FunctionTables::new(alloc, setting, f)?;
    let searched = SearchedFunction {
        tables: &tables,
        function: f,
        candidates: list.as_slice(),
        conditions: all.as_slice(),
        budget: file.options.budget,
    };
    let told = Told {
        input: file.input,
        types,
        function: f,
        visits: visits.as_slice(),
        keys: keys.as_slice(),
    };
    write_searched(file, &told, &searched, out, decider)
}
