//! What a walk over all branches may cost at most, form by form: definitions alone.
#![tactic(auto)]
