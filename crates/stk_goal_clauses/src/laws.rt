// Laws of clauses that stand for a goal.
ghost use Rattle.stk_goal_clauses.specs.Laws.{SatisfiedMakesOne, UnsatisfiableIsNever};

/// Values that satisfy clauses which stand for a goal are those of inputs that make it 1; where nothing satisfies them,
/// no inputs do.
pub fn standing()
    ensures satisfied { SatisfiedMakesOne }
    ensures never { UnsatisfiableIsNever }
{}
