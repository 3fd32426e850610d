// Laws of acceptance.
ghost use Rattle.stk_accept_laws.specs.Laws.{TokensAreOneTree, AcceptedUnitsLeaveOneScope, RefusedUnitsLeaveOneScope, NoneIsBoth, RefusalsHaveOneCause};

/// Tokens are one tree at most; a unit is accepted or refused and not both, is refused for one cause, and leaves one
/// list of names in force. It computes nothing.
pub fn units_are_accepted_in_one_way()
    ensures trees { TokensAreOneTree }
    ensures accepted { AcceptedUnitsLeaveOneScope }
    ensures refused { RefusedUnitsLeaveOneScope }
    ensures apart { NoneIsBoth }
    ensures causes { RefusalsHaveOneCause }
{}
