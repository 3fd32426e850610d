// Laws of clauses that a search or an auditor rests on.
ghost use Rattle.stk_clauses.specs.Laws.{QuietMakesNew, NewIsNoSuperset, RefutationIsSound};

/// Where every clause is quiet, a clause with one open literal whose other literals are false is new.
pub fn quiet_makes_new()
    ensures { QuietMakesNew }
{}

/// No clause of the list is a part of a clause that is new over it.
pub fn new_is_no_superset()
    ensures { NewIsNoSuperset }
{}

/// Where a derivation refutes clauses, no values satisfy them.
pub fn refutation_is_sound()
    ensures { RefutationIsSound }
{}
