// The store of clauses, and a list of clauses with its variables.
ghost use Rattle.std.specs.Prelude.{◌≡◌, ◌+◌, ◌-◌, ◌^◌, ◌<◌, ◌≤◌, ◌∷◌, ◌++◌, ◌↔◌, [], IsTrue, length, slice_index, slice_index_or, slice_range, IfOk, OnOk, OnErr};
ghost use Rattle.std.specs.List.{All};
ghost use Rattle.stk_clauses.specs.Cut.{cut, AreEnds};
ghost use Rattle.stk_clauses.specs.Literals.{AreDistinct, AreBelow};

use crate::Lit;
use crate::literal::are_below;
use std::alloc::Global;
use std::marker::Model;
use stk_base::NoMemory;

/// A list of clauses, numbered from 0. The literals of a clause differ from each other, and there are fewer than 2^31
/// clauses.
///
/// All literals stand in one vector, and where each clause ends in another.
#[derive(Drop)]
pub struct Store {
    literals: Vec<Lit>,
    ends: Vec<usize>,
}

impl Model for Store {
    ghost use Rattle.std.specs.Prelude.{List};
    ghost use Rattle.stk_clauses.specs.declared.literal.Lit.{Lit};

    ghost Value = { List (List Lit) };

    ghost use Rattle.stk_clauses.specs.Cut.{cut, IsStore};

    ghost view = { λ s. cut s.literals.items 0 s.ends.items };

    ghost invariant = { λ s. IsStore s.literals.items s.ends.items };
}

/// Where the clause at a place begins: where the one before it ends, or at 0.
fn begin_of(ends: &[usize], at: usize) -> usize
    requires { at < length ends.now }
    ensures { result ≡ slice_index (0 ∷ ends.now) at }
{
    if at == 0 { 0 } else { ends[at - 1] }
}

/// The literals of the clause at a place.
fn clause_at<'a>(literals: &'a [Lit], ends: &[usize], at: usize) -> &'a [Lit]
    requires rising { AreEnds 0 ends.now (length literals.now) }
    requires exists { at < length ends.now }
    ensures { result.now ≡ slice_index_or (cut literals.now 0 ends.now) at [] }
{
    let from = begin_of(ends, at);
    between(literals, from, ends[at])
}

fn between(literals: &[Lit], from: usize, to: usize) -> &[Lit]
    requires forwards { from ≤ to }
    requires within { to ≤ length literals.now }
    ensures { result.now ≡ slice_range literals.now from to }
{
    &literals[from..to]
}

/// Appends literals. Two or three, as most clauses have, go one by one.
fn append(literals: &mut Vec<Lit>, clause: &[Lit]) -> Result<(), NoMemory>
    ensures appended { OnOk result (literals.new.items ≡ literals.old.items ++ clause.now) }
    ensures kept { OnErr result (literals.new.items ≡ literals.old.items) }
{
    match clause {
        [first, second] => {
            literals.reserve(2)?;
            literals.push_reserved(*first);
            literals.push_reserved(*second);
            Ok(())
        }
        [first, second, third] => {
            literals.reserve(3)?;
            literals.push_reserved(*first);
            literals.push_reserved(*second);
            literals.push_reserved(*third);
            Ok(())
        }
        _ => {
            literals.extend_from_slice(clause)?;
            Ok(())
        }
    }
}

impl Store {
    /// A store without clauses. It takes no memory; later calls take theirs from `alloc`.
    pub fn new(alloc: Global) -> Store
        ensures { result ≡ [] }
    {
        Store {
            literals: Vec::new(alloc),
            ends: Vec::new(alloc),
        }
    }

    /// Appends a clause, whose literals differ, and answers its number. After `NoMemory` the store is as before.
    pub fn push(&mut self, clause: &[Lit]) -> Result<u32, NoMemory>
        requires room { length self.old < 2 ^ 31 - 1 }
        requires distinct { AreDistinct clause.now }
        ensures number { IfOk result (λ id. id ≡ length self.old) }
        ensures pushed { OnOk result (self.new ≡ self.old ++ clause.now ∷ []) }
        ensures kept { OnErr result (self.new ≡ self.old) }
    {
        self.ends.reserve(1)?;
        append(&mut self.literals, clause)?;
        let id = self.ends.len() as u32;
        self.ends.push_reserved(self.literals.len());
        Ok(id)
    }

    /// The same clauses once more, in memory from `alloc`.
    pub fn copied(&self, alloc: Global) -> Result<Store, NoMemory>
        ensures { IfOk result (λ s. s ≡ self.now) }
    {
        let literals = Vec::from_slice(alloc, &self.literals)?;
        let ends = Vec::from_slice(alloc, &self.ends)?;
        Ok(Store { literals, ends })
    }

    /// How many clauses there are.
    pub fn count(&self) -> u32
        ensures count { result ≡ length self.now }
        ensures few { result < 2 ^ 31 }
        ensures distinct { All AreDistinct self.now }
    {
        self.ends.len() as u32
    }

    /// The literals of the clause with this number. It takes no memory.
    pub fn clause(&self, id: u32) -> &[Lit]
        requires { id < length self.now }
        ensures clause { result.now ≡ slice_index_or self.now id [] }
        ensures distinct { AreDistinct result.now }
    {
        clause_at(&self.literals, &self.ends, id as usize)
    }
}

/// A list of clauses over the variables below `vars`.
#[derive(Drop)]
pub struct Cnf {
    pub vars: u32,
    pub store: Store,
}

impl Cnf {
    /// Whether each literal's variable is below `vars`, as each call asks that takes a list of clauses.
    pub fn is_within(&self) -> bool
        ensures { IsTrue result ↔ All (AreBelow self.now.vars) self.now.store }
    {
        for id in 0..self.store.count() {
            if !are_below(self.store.clause(id), self.vars) {
                return false;
            }
        }
        true
    }
}
