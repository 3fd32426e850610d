// What an audit knows between two lines, and what a line does to it.
ghost use Rattle.std.specs.Prelude.{◌≡◌, IfOk};
ghost use Rattle.stk_audit_rules.specs.Knowing.{nothing_known, with_start, with_member, with_claim, with_candidate, with_function};
ghost use Rattle.stk_audit.specs.Progressing.{known_in};

use std::alloc::Global;
use std::mem;
use stk_audit_rules::{Claim, Start, Why};
use stk_base::{List, NoMemory};
use stk_clauses::Cnf;
use stk_numbers::{Candidate, Condition, Kinds};

/// What a line says, with its block.
#[derive(Drop)]
pub(crate) enum Step {
    /// It holds.
    Holds,
    /// It fails; this line is named.
    Fails { line: u32, why: Why },
}

/// What is known between two lines.
#[derive(Drop)]
pub(crate) struct Progress {
    /// The number of the next line, from 1.
    pub number: u32,
    /// The kinds that are taken out.
    pub without: Kinds,
    /// Where the function at hand begins.
    pub at: Option<u32>,
    /// The last candidate that was named of it.
    pub last: Option<Candidate>,
    /// The conditions of the claim that is being read.
    pub members: Vec<Condition>,
    /// Its starts.
    pub starts: Vec<Start>,
    /// Its clauses, once they have come.
    pub clauses: Option<Cnf>,
    /// The claims that hold.
    pub claims: Vec<Claim>,
}

impl Progress {
    /// Before the first line.
    pub(crate) fn new(alloc: Global) -> Progress
        ensures known { known_in result ≡ nothing_known }
        ensures number { result.number ≡ 1 }
    {
        Progress {
            number: 1,
            without: Kinds {
                overflow: false,
                zero: false,
                shift: false,
                null: false,
                pointer: false,
                bounds: false,
                abs: false,
                copy: false,
            },
            at: None,
            last: None,
            members: Vec::new(alloc),
            starts: Vec::new(alloc),
            clauses: None,
            claims: Vec::new(alloc),
        }
    }

    /// The next line fails.
    pub(crate) fn fails(&self, why: Why) -> Step
        ensures { result ≡ Step.Fails self.now.number why }
    {
        Step::Fails {
            line: self.number,
            why,
        }
    }

    /// Takes a function up, which begins here.
    pub(crate) fn begin_function(&mut self, at: u32)
        ensures known { known_in self.new ≡ with_function (known_in self.old) at }
        ensures number { self.new.number ≡ self.old.number }
    {
        self.at = Some(at);
        self.last = None;
        self.members.clear();
        self.starts.clear();
    }

    /// Takes a candidate of it up.
    pub(crate) fn begin_candidate(&mut self, candidate: Candidate)
        ensures known { known_in self.new ≡ with_candidate (known_in self.old) candidate }
        ensures number { self.new.number ≡ self.old.number }
    {
        self.last = Some(candidate);
        self.members.clear();
        self.starts.clear();
    }

    /// Adds a condition to the claim.
    pub(crate) fn add_member(&mut self, condition: Condition) -> Result<(), NoMemory>
        ensures known { IfOk result (λ _. known_in self.new ≡ with_member (known_in self.old) condition) }
        ensures number { IfOk result (λ _. self.new.number ≡ self.old.number) }
    {
        self.members.push(condition)?;
        Ok(())
    }

    /// Adds the start of the next line to the claim.
    pub(crate) fn add_start(
        &mut self,
        alloc: Global,
        residues: &[u64],
        shows: Option<Condition>,
    ) -> Result<(), NoMemory>
        ensures known { IfOk result (λ _. known_in self.new ≡ with_start (known_in self.old) self.old.number residues.now shows) }
        ensures number { IfOk result (λ _. self.new.number ≡ self.old.number) }
    {
        let line = self.number;
        let residues = List::from_vec(Vec::from_slice(alloc, residues)?);
        self.starts.push(Start {
            line,
            residues,
            shows,
        })?;
        Ok(())
    }

    /// Adds the claim that was read, with its starts. After want of memory nothing is known of those.
    pub(crate) fn add_claim(
        &mut self,
        alloc: Global,
        at: u32,
        candidate: Candidate,
    ) -> Result<(), NoMemory>
        ensures known { IfOk result (λ _. known_in self.new ≡ with_claim (known_in self.old) at candidate) }
        ensures number { IfOk result (λ _. self.new.number ≡ self.old.number) }
    {
        let set = List::from_vec(Vec::from_slice(alloc, &self.members)?);
        let starts = mem::replace(&mut self.starts, Vec::new(alloc));
        self.claims.push(Claim {
            at,
            candidate,
            set,
            starts: List::from_vec(starts),
        })?;
        Ok(())
    }
}
