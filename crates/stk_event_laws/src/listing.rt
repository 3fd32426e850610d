//! Laws of the events of a walk. Each is a function that does nothing, and whose contract is the law.

ghost use Rattle.stk_event_laws.specs.Listed.{EventsAreListed, EventsStandOnce};

/// Each event of the walk of a function's body is one of the function's conditions, or one of its candidates: no step
/// speaks of another one, whichever branches runs take. Asked is that `++`, `--` and assignments have no array as their
/// operand (C11 6.5.2.4p1, 6.5.3.1p1, 6.5.16p2).
pub fn events_are_listed()
    ensures { EventsAreListed }
{}

/// No event stands twice in the walk of a function's body: each condition and each candidate has one step at most.
/// Asked is, beside that, that nodes are numbered children first.
pub fn events_stand_once()
    ensures { EventsStandOnce }
{}
