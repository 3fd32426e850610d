//! Laws of numbering. Each is a function that does nothing, and whose contract is the law.

ghost use Rattle.stk_run_laws.specs.Numbered.{WhatIsLaidOutIsNumbered};

/// Where a function definition is laid out, the numbers of its parameters' declarators and of the evaluated nodes of
/// its body, in the order of the visits, ascend, whatever typing answers. It is what the laws over runs ask of a
/// function's numbers.
pub fn what_is_laid_out_is_numbered()
    ensures { WhatIsLaidOutIsNumbered }
{}
