// Laws of stores of terms: what earlier terms weigh, which maps residues are those of, and which steps goals depend on.
ghost use Rattle.stk_symbols.specs.Earlier.{EarlierTermsAreClosed};
ghost use Rattle.stk_symbols.specs.Maps.{MapsAreResidues};
ghost use Rattle.stk_symbols.specs.Matters.{GoalsDependOnWhatMatters};

/// In a store that has grown, the terms of the earlier one depend on none but each other, and weigh together no more
/// than the earlier store cost. So what was made since doesn't count in the cost of a goal over a walk's values.
pub fn earlier_terms()
    ensures { EarlierTermsAreClosed }
{}

/// Input maps that cover keys of given kinds, and residues in range of the widths of these kinds, stand for each other,
/// one for one: a map by the residues of its numbers, residues by the numbers that they stand for.
pub fn maps_are_residues()
    ensures { MapsAreResidues }
{}

/// A goal says the same of all events of a walk and of those that matter to it, violations of members of its set and
/// hits of its candidate; and its charge for all steps is that for the steps of these events.
pub fn goals_depend_on_what_matters()
    ensures { GoalsDependOnWhatMatters }
{}
