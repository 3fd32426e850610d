//! The generated text as a whole.

ghost use Rattle.std.specs.Prelude.{◌≡◌, ◌≤◌, ◌++◌, IfOk, vec_len};
ghost use Rattle.stk_base.specs.Limits.{most_bytes};
ghost use Rattle.stk_gen.specs.Drawing.{next_state};
ghost use Rattle.stk_gen.specs.Generated.{line_by, source_of};

use crate::drawing::Draws;
use crate::forms::{add_function, form_of};
use std::alloc::Global;
use stk_base::NoMemory;

/// The most functions that are generated.
pub const MOST_FUNCTIONS: u32 = 1_000;

// The number of forms, and the greatest constant.
const FORMS: u64 = 6;

const MOST_CONSTANT: u64 = 100;

// Adds the line of the function at a place, of which the form and the constant are drawn.
#[tactic(auto, unfolding(crate::specs::Generated::line_by))]
fn add_drawn(text: &mut Vec<u8>, place: u32, draws: &mut Draws) -> Result<(), NoMemory>
    ensures text { IfOk result (λ _. text.new.items ≡ text.old.items ++ line_by draws.old.state place) }
    ensures state { draws.new.state ≡ next_state (next_state draws.old.state) }
{
    let form = form_of(draws.below(FORMS));
    let constant = 1 + draws.below(MOST_CONSTANT);
    add_function(text, form, place, constant)
}

/// The text of C that a number generates: at most 1,000 functions, named `f0`, `f1` and so on, a line each. The form of
/// each function and a constant from 1 to 100 in it are drawn by a linear congruential generator, whose state begins as
/// the number. The text has at most 16,777,216 bytes, so it may be the input of the checker. No clause says when
/// `NoMemory` comes.
#[tactic(auto, using(crate::proofs::Lines::text_steps))]
pub fn source_of(alloc: Global, number: u64, functions: u32) -> Result<Vec<u8>, NoMemory>
    requires { functions ≤ MOST_FUNCTIONS }
    ensures text { IfOk result (λ text. text.items ≡ source_of number functions) }
    ensures few { IfOk result (λ text. vec_len text ≤ most_bytes) }
{
    let mut text = Vec::new(alloc);
    let mut draws = Draws { state: number };
    for place in 0..functions {
        add_drawn(&mut text, place, &mut draws)?;
    }
    Ok(text)
}
