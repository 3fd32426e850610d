//! A law of the widths of kinds.
ghost use Rattle.stk_type_laws.specs.Widths.{KindsAreWide};

/// A promoted kind is the wider of its operand and an `int`, a common kind the widest of both operands and an `int`,
/// and neither is `_Bool`.
pub fn kinds_are_wide()
    ensures { KindsAreWide }
{}
