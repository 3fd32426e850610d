//! Where a run has come to, and what a step of it does.

ghost use Rattle.std.specs.Prelude.{◌≡◌, ◌∷◌, [], pos, IfOk, set, get_or};
ghost use Rattle.stk_meaning.specs.Conditions.{violated};
ghost use Rattle.stk_operators.specs.Checked.{kept_tests};
ghost use Rattle.stk_eval_expr.specs.Leaving.{Adds, Bounds, Stops};

use std::alloc::Global;
use stk_base::NoMemory;
use stk_meaning::Entry;
use stk_numbers::Kinds;
use stk_operators::{NodeTests, Word, push_violated};

/// How a statement ends (C11 6.8.6).
#[derive(Clone, Copy, Debug)]
pub enum Flow {
    Normal,
    Break,
    Continue,
    Return,
}

/// A number, and the numbers that its operands had where it is that of a sum or difference.
#[derive(Clone, Copy, Debug)]
pub struct Sides {
    pub number: Word,
    pub left: Word,
    pub right: Word,
}

/// The registers by the numbers of their declarators, what the world keeps, the entries so far, how many of them there
/// may be, and whether the run is cut. A run that has more entries is cut as well. One that is cut adds no entry, and
/// what it gives from then on doesn't matter.
#[derive(Drop)]
pub struct State<K> {
    pub registers: Vec<Word>,
    pub kept: K,
    pub entries: Vec<Entry>,
    pub most: usize,
    pub cut: bool,
    pub alloc: Global,
}

/// Puts a number in a place, where there is one.
pub fn put_word(list: &mut Vec<Word>, at: usize, number: Word)
    ensures { list.new.items ≡ set list.old.items at number }
{
    if at < list.len() {
        list[at] = number;
    }
}

impl<K> State<K> {
    /// Ends the run here.
    pub fn end(&mut self)
        ensures { Stops self.old self.new }
    {
        self.cut = true;
    }

    // Ends a run that has more entries than there may be.
    fn bound(&mut self)
        ensures { Bounds self.old self.new }
    {
        if self.entries.len() > self.most {
            self.cut = true;
        }
    }

    /// Adds an entry, unless the run is cut.
    pub fn push(&mut self, entry: Entry) -> Result<(), NoMemory>
        ensures { IfOk result (λ _. Adds (entry ∷ []) self.old self.new) }
    {
        if self.cut {
            return Ok(());
        }
        self.entries.push(entry)?;
        self.bound();
        Ok(())
    }

    /// Adds the entries of what is asked at a node that the numbers of its operands violate, unless the run is cut.
    pub fn violate(
        &mut self,
        node_tests: NodeTests,
        without: Kinds,
        node: u32,
        numbers: (Word, Word, Word),
    ) -> Result<(), NoMemory>
        ensures { IfOk result (λ _. Adds (violated node (kept_tests without node_tests) numbers.0 numbers.1 numbers.2) self.old self.new) }
    {
        if self.cut {
            return Ok(());
        }
        push_violated(node_tests, without, node, numbers, &mut self.entries)?;
        self.bound();
        Ok(())
    }

    /// The number of a register; 0 of one that there isn't.
    pub fn register(&self, at: u32) -> Word
        ensures { result ≡ get_or self.now.registers.items at (pos 0) }
    {
        match self.registers.get(at as usize) {
            Some(number) => *number,
            None => Word::bit(false),
        }
    }
}
