//! Goals and queries.

ghost use Rattle.stk_goal_laws.specs.Queries.{GoalsAreOfQueries};

/// What a goal asks of the events of a walk, by the position of a candidate, is what a query asks of the trace that
/// they say: whether some entry hits the candidate, and no condition of the set is violated before it.
pub fn goals_are_of_queries()
    ensures { GoalsAreOfQueries }
{}
