//! A law of what goals cost.
ghost use Rattle.stk_goals.specs.Laws.{GoalsAddLittle};

/// Where the steps of a walk say the events of the walk of a function's body, one each, a goal adds at most 16 for each
/// node of the function and of its unit to what the walk's values cost: a node has at most two conditions, and each
/// candidate one step at most.
pub fn goals_add_little()
    ensures { GoalsAddLittle }
{}
