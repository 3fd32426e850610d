//! A law of the names that units leave in force.
ghost use Rattle.stk_type_laws.specs.Orderly.{UnitsKeepOrder};

/// Each object that a unit declares at file scope has a type that an object has, no `void` and no function; and each
/// struct that it gives members is declared and had none, and they have sizes, but perhaps the last one. So it is of
/// the names in force behind units that are accepted, one after the other from none on.
pub fn units_keep_order()
    ensures { UnitsKeepOrder }
{}
