//! The input map of a choice.

ghost use Rattle.std.specs.Prelude.{◌≡◌, map, true, IfOk};
ghost use Rattle.stk_numbers.specs.Kinds.{fits};
ghost use Rattle.stk_meaning.specs.Maps.{AreInRange};
ghost use Rattle.stk_function_env.specs.Infos.{info_in};

use crate::Choice;
use crate::drawing::Drawer;
use std::alloc::Global;
use stk_base::{List, NoMemory};
use stk_function_env::{Key, KeyInfo};
use stk_numbers::{Inputs, IntKind, signed, width, wrap};

// The greatest number of a kind, or one that is converted to it.
fn greatest(kind: IntKind) -> i128 {
    let bits = u32::from(width(kind));
    if signed(kind) {
        i128::from(u64::MAX >> 1) >> (64 - bits)
    } else {
        i128::from(u64::MAX)
    }
}

// The number of a key that is no address.
fn chosen(choice: Choice, kind: IntKind, drawer: &mut Drawer) -> i128 {
    match choice {
        Choice::Same(number) => i128::from(number),
        Choice::Least => { if signed(kind) { -1 - greatest(kind) } else { 0 } }
        Choice::Greatest => greatest(kind),
        Choice::Drawn(_) => drawer.number(),
    }
}

// The number of a key, in the range of its kind.
fn number_of(choice: Choice, info: &KeyInfo, drawer: &mut Drawer) -> i128
    ensures { fits info.now.kind result ≡ true }
{
    let number = match info.key {
        Key::Address(_) => i128::from(drawer.place(info.size)),
        Key::Parameter(_) | Key::Unset(_) | Key::Load(_) | Key::Call(_) | Key::Loop(_, _) => {
            chosen(choice, info.kind, drawer)
        }
    };
    wrap(info.kind, number)
}

// The number that a choice's generator begins with.
fn seed_of(choice: Choice) -> u64 {
    match choice {
        Choice::Drawn(seed) => seed,
        Choice::Same(_) | Choice::Least | Choice::Greatest => 0,
    }
}

/// The input map of a choice, for these keys: each number is in the range of its key's kind. Objects are placed one
/// behind the other; whether their addresses are valid has to be tried.
pub fn map_of_choice(alloc: Global, keys: &[KeyInfo], choice: Choice) -> Result<Inputs, NoMemory>
    ensures { IfOk result (λ inputs. AreInRange (map info_in keys.now) inputs.numbers) }
{
    let mut drawer = Drawer::new(seed_of(choice));
    let mut numbers = Vec::new(alloc);
    for info in keys {
        numbers.push(number_of(choice, info, &mut drawer))?;
    }
    Ok(Inputs {
        numbers: List::from_vec(numbers),
    })
}
