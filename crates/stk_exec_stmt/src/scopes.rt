//! The registers that a scope declares, which get back their numbers from before.

ghost use Rattle.std.specs.Prelude.{◌≡◌, ◌++◌, IfOk, OnOk, map};
ghost use Rattle.stk_tree.specs.View.{view_part, parts, view_start, view_declaration, view_declarator, declarators};
ghost use Rattle.stk_meaning.specs.Visits.{part_declares, parts_declare, start_declares, declared_in, declared_by};
ghost use Rattle.stk_exec_stmt.specs.Saved.{saved_of, given_back};

use stk_base::NoMemory;
use stk_eval_expr::{State, put_word};
use stk_operators::Word;
use stk_tree::{Declaration, Declr, Part, Start};

/// A register with its number before a scope.
#[derive(Clone, Copy, Debug)]
pub struct Saved {
    pub register: u32,
    pub number: Word,
}

// Adds the numbers of the registers that declarators declare.
fn save_declared<K>(
    list: &[Declr],
    state: &State<K>,
    saved: &mut Vec<Saved>,
) -> Result<(), NoMemory>
    ensures { OnOk result (saved.new.items ≡ saved.old.items ++ saved_of (declared_by (declarators (map view_declarator list.now))) state.now.registers.items) }
{
    for d in list {
        let register = d.node.number;
        let number = state.register(register);
        saved.push(Saved { register, number })?;
    }
    Ok(())
}

// Adds those of a declaration.
fn save_declaration<K>(
    d: &Declaration,
    state: &State<K>,
    saved: &mut Vec<Saved>,
) -> Result<(), NoMemory>
    ensures { OnOk result (saved.new.items ≡ saved.old.items ++ saved_of (declared_in (view_declaration d.now)) state.now.registers.items) }
{
    save_declared(d.list.as_slice(), state, saved)
}

// Adds those of a part of a block.
fn save_part<K>(part: &Part, state: &State<K>, saved: &mut Vec<Saved>) -> Result<(), NoMemory>
    ensures { OnOk result (saved.new.items ≡ saved.old.items ++ saved_of (part_declares (view_part part.now)) state.now.registers.items) }
{
    match part {
        Part::Local(d) => save_declaration(d, state, saved),
        Part::Run(_) => Ok(()),
    }
}

/// The numbers of the registers that the parts of a block declare, without the blocks in it.
pub(crate) fn saved_parts<K>(list: &[Part], state: &State<K>) -> Result<Vec<Saved>, NoMemory>
    ensures { IfOk result (λ saved. saved.items ≡ saved_of (parts_declare (parts (map view_part list.now))) state.now.registers.items) }
{
    let mut saved = Vec::new(state.alloc);
    for part in list {
        save_part(part, state, &mut saved)?;
    }
    Ok(saved)
}

/// The numbers of the registers that the first part of a `for` declares.
pub(crate) fn saved_start<K>(start: &Start, state: &State<K>) -> Result<Vec<Saved>, NoMemory>
    ensures { IfOk result (λ saved. saved.items ≡ saved_of (start_declares (view_start start.now)) state.now.registers.items) }
{
    let mut saved = Vec::new(state.alloc);
    match start {
        Start::Local(d) => save_declaration(d, state, &mut saved)?,
        Start::Plain(_) => {}
    }
    Ok(saved)
}

/// Gives registers their numbers back, the last one first.
pub(crate) fn give_back(saved: Vec<Saved>, registers: &mut Vec<Word>)
    ensures { registers.new.items ≡ given_back saved.items registers.old.items }
{
    let mut left = saved;
    while let Some(last) = left.pop() {
        put_word(registers, last.register as usize, last.number);
    }
}
