//! Laws over path runs and executions. Each is a function that does nothing, and whose contract is the law.

ghost use Rattle.stk_run_laws.specs.Shown.{EachEndIsShown, Gathering, OneConditionServesAll, WhatSufficesInPathsSuffices};

/// For each place of an execution there is a valid input map whose path run makes the same entry, and what stands
/// before it there stands before that place in the execution. This holds for every start, memory, list of answers,
/// bound on the turns of loops and set of kinds that is taken out, with real loops, `switch`, stores, loads and calls
/// (C11 5.1.2.3, 6.8.5). Asked is that nodes are numbered children first and that typing agrees with the tree.
pub fn each_place_is_shown()
    ensures { Gathering }
{}

/// For each execution that comes to an end there is a valid input map whose path run ends in the same way with the same
/// registers and makes no other entries, and each number that it has kept is what the memory of the execution gives at
/// that object.
pub fn each_end_is_shown()
    ensures { EachEndIsShown }
{}

/// A set of conditions that suffices for a candidate in path runs suffices for it in every execution.
pub fn what_suffices_in_paths_suffices()
    ensures { WhatSufficesInPathsSuffices }
{}

/// What these laws ask of a function is enough for those on lists of conditions and candidates, and for the one that
/// each node is evaluated once.
pub fn one_condition_serves_all()
    ensures { OneConditionServesAll }
{}
