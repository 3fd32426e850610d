//! Laws of runs. Each is a function that does nothing, and whose contract is the law.

ghost use Rattle.stk_run_laws.specs.Listed.{CandidatesAreInOrder, ConditionsAreInOrder, ExecutionsAreListed, PathRunsAreListed};
ghost use Rattle.stk_run_laws.specs.Once.{ASufficientSetHasAMember, EachNodeIsEvaluatedOnce};

/// Each condition that a run violates is one of the function's conditions, and each candidate that an entry hits is one
/// of its candidates: in path runs, from any numbers, and in executions, from any start, memory, answers and bound on
/// turns. So a kind of undefined behaviour that is taken out is violated nowhere. Asked is that `++`, `--` and
/// assignments have no array as their operand (C11 6.5.2.4p1, 6.5.3.1p1, 6.5.16p2), without which more would be
/// violated than is listed.
pub fn what_runs_make_is_listed()
    ensures path_runs { PathRunsAreListed }
    ensures executions { ExecutionsAreListed }
{}

/// The conditions of a function are in the order of their nodes and then of their kinds, and so are its candidates; so
/// none is listed twice. Asked is that nodes are numbered children first.
pub fn lists_are_in_order()
    ensures conditions { ConditionsAreInOrder }
    ensures candidates { CandidatesAreInOrder }
{}

/// A path run evaluates each node at most once: no candidate is hit by two entries of its trace, and no condition is
/// violated by two, from any numbers, with loops, `switch`, stores and calls. So "the first hit" of a candidate is its
/// only one.
pub fn each_node_is_evaluated_once()
    ensures { EachNodeIsEvaluatedOnce }
{}

/// A set of conditions that suffices for a candidate that some path run hits, as it does for an unstable one, has a
/// member.
pub fn a_sufficient_set_has_a_member()
    ensures { ASufficientSetHasAMember }
{}
