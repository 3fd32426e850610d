//! A law of the places of records.
ghost use Rattle.stk_text_laws.specs.Found.{NodesAreFound};

/// Each candidate and each condition of a function that is laid out stands at a node of its unit.
pub fn nodes_are_found()
    ensures { NodesAreFound }
{}
