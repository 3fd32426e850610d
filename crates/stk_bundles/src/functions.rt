//! The claims of a function's findings.

ghost use Rattle.std.specs.Prelude.{◌≡◌, ◌≤◌, ◌<◌, ◌^◌, Err, IfOk, OnErr, length};
ghost use Rattle.stk_base.specs.Causes.{Rose};
ghost use Rattle.stk_tree.specs.View.{view_function};
ghost use Rattle.stk_meaning.specs.Weights as weights;
ghost use Rattle.stk_run_laws.specs.Visits.{IsNumbered};
ghost use Rattle.stk_function_types.specs.Nodes.{typing_in};
ghost use Rattle.stk_units.specs.Units.{IsSettingOfFunction};
ghost use Rattle.stk_claims.specs.Queries.{key_kinds};
ghost use Rattle.stk_units.specs.Known.{IsTypedFunction};
ghost use Rattle.stk_findings.specs.Searched.{about_searched, subject_searched, IsSearchable};
ghost use Rattle.stk_bundles.specs.Wrote.{WroteClaims, HasStopped, WroteFunction, HasStoppedIn};

use std::alloc::Global;
use stk_base::Sink;
use stk_cands::{candidates, conditions};
use stk_claims::{ClaimedFunction, ToldFinding, kinds_of, write_finding_parts};
use stk_findings::{FunctionTables, Judge, Queries, SearchedFunction, SiftedMaps};
use stk_function_env::Setting;
use stk_numbers::IntKind;
use stk_query::Decider;
use stk_records::{Counts, Stop};
use stk_tree::Function;
use stk_units::{one_function, with_finding};

/// What the claims of a function tell of it beside its findings: the kinds of its keys in order, and the byte at which
/// its definition begins; and where memory comes from.
#[derive(Clone, Copy)]
pub(crate) struct ClaimPlace<'a> {
    pub(crate) alloc: Global,
    pub(crate) kinds: &'a [IntKind],
    pub(crate) at: u64,
}

// Judges the candidates of a function, in order, and writes the claim of each report as soon as it is judged. The
// answer is what the function counts for.
fn write_claims<J: Judge, K: Sink, D: Decider>(
    place: &ClaimPlace,
    searched: &SearchedFunction,
    judge: &mut J,
    out: &mut K,
    decider: &mut D,
) -> Result<Counts, Stop>
    requires kinds { place.now.kinds.now ≡ key_kinds (about_searched searched.now).typing (about_searched searched.now).without (about_searched searched.now).tree }
    requires ready { J.ready judge.old searched.now }
    requires searched { IsSearchable searched.now }
    requires few { length searched.now.candidates.now < 2 ^ 32 }
    ensures written { IfOk result (WroteClaims (subject_searched searched.now) (about_searched searched.now).typing (about_searched searched.now).without (about_searched searched.now).tree searched.now.budget place.now.at searched.now.candidates.now (K.taken out.old) (K.taken out.new) (D.given_up decider.old) (D.given_up decider.new)) }
    ensures stopped { OnErr result (HasStopped (subject_searched searched.now) (about_searched searched.now).typing (about_searched searched.now).without (about_searched searched.now).tree searched.now.budget place.now.at searched.now.candidates.now (K.taken out.old) (K.taken out.new)) }
    ensures later { K.faults out.old ≤ K.faults out.new }
    ensures fault { result ≡ Err Stop.WriteFault → Rose (K.faults out.old) (K.faults out.new) }
    ensures given_up { D.given_up decider.old ≤ D.given_up decider.new }
{
    let list = searched.candidates;
    let function = ClaimedFunction {
        alloc: place.alloc,
        tables: searched.tables,
        function: searched.function,
        candidates: list,
        kinds: place.kinds,
        at: place.at,
        budget: searched.budget,
    };
    let mut begun = false;
    let mut counts = one_function();
    for at in 0..list.len() {
        let position = at as u32;
        let candidate = list[at];
        let finding = judge.finding(searched, decider, position, candidate)?;
        let told = ToldFinding {
            position,
            candidate,
            finding: &finding,
        };
        begun = write_finding_parts(&function, &told, begun, out, decider)?;
        counts = with_finding(counts, &finding);
    }
    Ok(counts)
}

// The same of a function that is searched. Where it has no candidate nothing is run.
fn write_searched<K: Sink, D: Decider>(
    place: &ClaimPlace,
    searched: &SearchedFunction,
    out: &mut K,
    decider: &mut D,
) -> Result<Counts, Stop>
    requires kinds { place.now.kinds.now ≡ key_kinds (about_searched searched.now).typing (about_searched searched.now).without (about_searched searched.now).tree }
    requires searched { IsSearchable searched.now }
    ensures written { IfOk result (WroteClaims (subject_searched searched.now) (about_searched searched.now).typing (about_searched searched.now).without (about_searched searched.now).tree searched.now.budget place.now.at searched.now.candidates.now (K.taken out.old) (K.taken out.new) (D.given_up decider.old) (D.given_up decider.new)) }
    ensures stopped { OnErr result (HasStopped (subject_searched searched.now) (about_searched searched.now).typing (about_searched searched.now).without (about_searched searched.now).tree searched.now.budget place.now.at searched.now.candidates.now (K.taken out.old) (K.taken out.new)) }
    ensures later { K.faults out.old ≤ K.faults out.new }
    ensures fault { result ≡ Err Stop.WriteFault → Rose (K.faults out.old) (K.faults out.new) }
    ensures given_up { D.given_up decider.old ≤ D.given_up decider.new }
{
    if searched.candidates.is_empty() {
        return Ok(one_function());
    }
    if searched.is_narrow() {
        let mut judge = SiftedMaps::new(place.alloc, searched)?;
        return write_claims(place, searched, &mut judge, out, decider);
    }
    let mut judge = Queries::new(place.alloc, searched)?;
    write_claims(place, searched, &mut judge, out, decider)
}

/// Where the claims of a function are made: where memory comes from, the byte at which its definition begins, and the
/// budget of each query: how many clauses a search may learn, from 1 to 200,000.
#[derive(Clone, Copy)]
pub(crate) struct ClaimOptions {
    pub(crate) alloc: Global,
    pub(crate) at: u64,
    pub(crate) budget: u32,
}

/// Judges a function whose setting this is, and writes the part that it has in a bundle: nothing where none of its
/// candidates is unstable, and else its line and for each report its claim, or that it has none. The answer is what the
/// function counts for.
pub(crate) fn write_function<K: Sink, D: Decider>(
    options: ClaimOptions,
    setting: &Setting,
    f: &Function,
    out: &mut K,
    decider: &mut D,
) -> Result<Counts, Stop>
    requires of { IsSettingOfFunction (view_function f.now) setting.now }
    requires numbered { IsNumbered (typing_in setting.now.types) (view_function f.now) }
    requires typed { IsTypedFunction (typing_in setting.now.types) setting.now.without (view_function f.now) }
    requires light { weights.weight (typing_in setting.now.types) setting.now.without (view_function f.now) ≤ weights.most_weight }
    requires least { 1 ≤ options.budget }
    requires most { options.budget ≤ 200000 }
    ensures written { IfOk result (WroteFunction (typing_in setting.now.types) setting.now.without (view_function f.now) options.budget options.at (K.taken out.old) (K.taken out.new) (D.given_up decider.old) (D.given_up decider.new)) }
    ensures stopped { OnErr result (HasStoppedIn (typing_in setting.now.types) setting.now.without (view_function f.now) options.budget options.at (K.taken out.old) (K.taken out.new)) }
    ensures later { K.faults out.old ≤ K.faults out.new }
    ensures fault { result ≡ Err Stop.WriteFault → Rose (K.faults out.old) (K.faults out.new) }
    ensures given_up { D.given_up decider.old ≤ D.given_up decider.new }
{
    let alloc = options.alloc;
    let types = setting.types();
    let list = candidates(alloc, types, f)?;
    let all = conditions(alloc, types, setting.without(), f)?;
    let kinds = kinds_of(alloc, setting.keys())?;
    let tables = FunctionTables::new(alloc, setting, f)?;
    let searched = SearchedFunction {
        tables: &tables,
        function: f,
        candidates: list.as_slice(),
        conditions: all.as_slice(),
        budget: options.budget,
    };
    let place = ClaimPlace {
        alloc,
        kinds: kinds.as_slice(),
        at: options.at,
    };
    write_searched(&place, &searched, out, decider)
}
