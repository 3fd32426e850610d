//! How the walks of parts make the walk of a whole. Each is a function that does nothing, and whose contract is the
//! law.

ghost use Rattle.stk_guarded.specs.Laws.{SequencesCompose, BranchesCompose, ScopesCompose, TurnsCompose, SectionsCompose, StepsFollow, KeptObjectsFollow};

/// Where the walks of two parts follow their runs, the one behind the other follows the run of both, whether the run
/// comes to the second part or not.
pub fn sequences_compose()
    ensures { SequencesCompose }
{}

/// Both branches of a test are walked, one after the other, each under its guard; and the walk follows the run of the
/// branch that the test chooses.
pub fn branches_compose()
    ensures { BranchesCompose }
{}

/// A scope gives back the registers that it declares, however it ends, and whether the run comes to it or not.
pub fn scopes_compose()
    ensures { ScopesCompose }
{}

/// A loop turns once: its beginning, its test, its body and what follows the body, with what `break`, `continue` and
/// `return` leave.
pub fn turns_compose()
    ensures { TurnsCompose }
{}

/// The sections of a `switch` are walked once each, also those that are fallen into.
pub fn sections_compose()
    ensures { SectionsCompose }
{}

/// What stands alone follows its run: a value, entries, other registers and kept numbers, a cut, `break`, `continue`,
/// `return`, and a declarator's register, which is set without a guard.
pub fn steps_follow()
    ensures { StepsFollow }
{}

/// A kept object under a guard: what its bit and its number say behind a read, a store and a removal.
pub fn kept_objects_follow()
    ensures { KeptObjectsFollow }
{}
