// The chains, by the first number of each and the number behind each number.
ghost use Rattle.std.specs.Prelude.{◌≡◌, ◌+◌, ◌^◌, ◌<◌, ◌≤◌, ◌∷◌, [], ℕ, length, drop, replicate, slice_set, slice_index_or, IfOk, OnOk, OnErr, MatchOption};
ghost use Rattle.std.specs.List.{Contains};
ghost use Rattle.stk_propagate.specs.WatchLists.{AreApart};

use std::alloc::Global;
use std::marker::Model;
use stk_base::NoMemory;

const END: u32 = u32::MAX;

/// Lists of numbers: each number is in at most one list, and there once.
///
/// `firsts` has the first number of each chain, and `nexts` the one behind each number, `END` where there is none.
#[derive(Drop)]
pub struct WatchLists {
    firsts: Vec<u32>,
    nexts: Vec<u32>,
}

impl Model for WatchLists {
    ghost use Rattle.stk_propagate.specs.WatchLists.{Chained};

    ghost Value = { Chained };

    ghost use Rattle.stk_propagate.specs.WatchListInside.{seen_as, IsInside};

    ghost view = { seen_as };

    ghost invariant = { IsInside };
}

impl WatchLists {
    /// So many empty chains, and no numbers.
    pub fn reserve(alloc: Global, count: usize) -> Result<WatchLists, NoMemory>
        ensures { IfOk result (λ c. c ≡ record { chains = replicate count []; numbers = 0 }) }
    {
        WatchLists::with_numbers(alloc, count, 0)
    }

    /// So many empty chains, and so many numbers, in no chain.
    pub(crate) fn with_numbers(
        alloc: Global,
        count: usize,
        numbers: usize,
    ) -> Result<WatchLists, NoMemory>
        requires { numbers < 2 ^ 32 }
        ensures { IfOk result (λ c. c ≡ record { chains = replicate count []; numbers = numbers }) }
    {
        let firsts = vec![in alloc; END; count]?;
        let nexts = vec![in alloc; END; numbers]?;
        Ok(WatchLists { firsts, nexts })
    }

    /// Two numbers more, the next ones, in no chain. After `NoMemory` all is as before.
    pub fn grow(&mut self) -> Result<(), NoMemory>
        requires { self.old.numbers + 2 < 2 ^ 32 }
        ensures grown { OnOk result (self.new ≡ record { chains = self.old.chains; numbers = self.old.numbers + 2 }) }
        ensures kept { OnErr result (self.new ≡ self.old) }
    {
        self.nexts.extend_from_slice(&[END, END])?;
        Ok(())
    }

    /// Takes the first number out of a chain, if it has one. It is in no chain then.
    pub fn take_first(&mut self, chain: usize) -> Option<u32>
        requires { chain < length self.old.chains }
        ensures first { MatchOption result (slice_index_or self.old.chains chain [] ≡ []) (λ x. slice_index_or self.old.chains chain [] ≡ x ∷ drop 1 (slice_index_or self.old.chains chain [])) }
        ensures rest { self.new ≡ record { chains = slice_set self.old.chains chain (drop 1 (slice_index_or self.old.chains chain [])); numbers = self.old.numbers } }
        ensures apart { AreApart self.new }
        ensures free { MatchOption result (self.new ≡ self.old) (λ x. (x < self.new.numbers) × ((c : ℕ) → Contains (slice_index_or self.new.chains c []) x → ⊥)) }
    {
        let first = self.firsts[chain];
        if first == END {
            return None;
        }
        self.firsts[chain] = self.nexts[first as usize];
        Some(first)
    }

    /// Puts a number that is in no chain to the front of a chain.
    pub fn link(&mut self, number: u32, chain: usize)
        requires exists { chain < length self.old.chains }
        requires below { number < self.old.numbers }
        requires free { (c : ℕ) → Contains (slice_index_or self.old.chains c []) number → ⊥ }
        ensures { self.new ≡ record { chains = slice_set self.old.chains chain (number ∷ slice_index_or self.old.chains chain []); numbers = self.old.numbers } }
    {
        self.nexts[number as usize] = self.firsts[chain];
        self.firsts[chain] = number;
    }

    /// Exchanges two chains.
    pub fn exchange(&mut self, a: usize, b: usize)
        requires first { a < length self.old.chains }
        requires second { b < length self.old.chains }
        ensures { self.new ≡ record { chains = slice_set (slice_set self.old.chains a (slice_index_or self.old.chains b [])) b (slice_index_or self.old.chains a []); numbers = self.old.numbers } }
    {
        let first = self.firsts[a];
        self.firsts[a] = self.firsts[b];
        self.firsts[b] = first;
    }
}
