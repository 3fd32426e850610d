//! What units count for, and the status that goes with it.

ghost use Rattle.std.specs.Prelude.{◌≡◌, ◌≤◌, ◌∷◌, ◌++◌, [], List};
ghost use Rattle.stk_meaning.specs.declared.finding.Finding.{Finding as Told};
ghost use Rattle.stk_records.specs.Counts.{AreBelow};
ghost use Rattle.stk_units.specs.Counted.{unstable_count, undecided_count, one_skipped, one_judged, status_of};

use stk_base::Status;
use stk_meaning::Finding;
use stk_records::Counts;

// 1 for a report, and for a fragment that is undecided; 0 else.
fn is_report(finding: &Finding) -> u64
    ensures one { result ≤ 1 }
    ensures value { result ≡ unstable_count (finding.now ∷ []) }
{
    match finding {
        Finding::Unstable { .. } => 1,
        Finding::Clear | Finding::Undecided { .. } => 0,
    }
}

fn is_open(finding: &Finding) -> u64
    ensures one { result ≤ 1 }
    ensures value { result ≡ undecided_count (finding.now ∷ []) }
{
    match finding {
        Finding::Undecided { .. } => 1,
        Finding::Clear | Finding::Unstable { .. } => 0,
    }
}

/// What a unit that is skipped counts for.
pub fn one_skipped() -> Counts
    ensures { result ≡ one_skipped }
{
    Counts {
        functions: 0,
        candidates: 0,
        unstable: 0,
        undecided: 0,
        skipped: 1,
    }
}

/// What a function counts for without findings.
pub fn one_function() -> Counts
    ensures { result ≡ one_judged [] }
{
    Counts {
        functions: 1,
        ..Counts::nothing()
    }
}

/// What a function counts for with one finding more; each number is below 2^63.
pub fn with_finding(counts: Counts, finding: &Finding) -> Counts
    requires { AreBelow counts }
    ensures { (findings : List Told) → counts ≡ one_judged findings → result ≡ one_judged (findings ++ finding.now ∷ []) }
{
    Counts {
        candidates: counts.candidates + 1,
        unstable: counts.unstable + is_report(finding),
        undecided: counts.undecided + is_open(finding),
        ..counts
    }
}

/// The status where so many candidates are unstable, and so many undecided.
pub fn status_of(unstable: u64, undecided: u64) -> Status
    ensures { result ≡ status_of unstable undecided }
{
    if unstable > 0 {
        Status::Found
    } else if undecided > 0 {
        Status::Unsure
    } else {
        Status::Stable
    }
}
