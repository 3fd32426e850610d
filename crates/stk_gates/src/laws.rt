//! What the values of gates are for inputs, as laws over the definitions.

ghost use Rattle.stk_gates.specs.Laws.{EveryInputGives, InputsDecide, OlderEdgesKeep};

/// An edge has one value for each list of input bits: any bits give values of the gates, these decide the value of each
/// edge, and an older edge keeps its value in a table that has grown.
pub fn meanings()
    ensures gives { EveryInputGives }
    ensures decide { InputsDecide }
    ensures older { OlderEdgesKeep }
{}
