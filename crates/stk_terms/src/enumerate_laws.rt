// Laws of the order.
ghost use Rattle.stk_terms.specs.Ordered.{EachHasItsNumber};

/// Residues in range have a number below 2 to their bits, and those in front of them have lower ones.
pub fn each_has_its_number()
    ensures { EachHasItsNumber }
{}
