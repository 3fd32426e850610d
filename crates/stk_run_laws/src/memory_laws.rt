//! Laws of memory. Each is a function that does nothing, and whose contract is the law.

ghost use Rattle.stk_run_laws.specs.Held.{KeptNumbersGoOnAgreeing, WhatIsReadIsInRange, WhatIsStoredIsReadBack};

/// A number that is stored where it does not wrap round the last address is read back, converted to its kind (C11
/// 6.2.6.1, 6.5.16.1p2).
pub fn what_is_stored_is_read_back()
    ensures { WhatIsStoredIsReadBack }
{}

/// A number that is read from any memory is in the range of its kind.
pub fn what_is_read_is_in_range()
    ensures { WhatIsReadIsInRange }
{}

/// Kept numbers go on being what the memory gives at their objects: over a store to a kept object, over one to bytes
/// that no kept object has, and over any change where what may have changed is forgotten. Kept objects share no byte
/// with each other.
pub fn kept_numbers_go_on_agreeing()
    ensures { KeptNumbersGoOnAgreeing }
{}
