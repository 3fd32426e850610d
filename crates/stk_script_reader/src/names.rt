//! What the names of a script stand for.

ghost use Rattle.std.specs.Prelude.{◌≡◌, ◌∷◌, [], ℕ, List, OnOk, None};
ghost use Rattle.std.specs.Option.{option_map};
ghost use Rattle.stk_scripts.specs.Scripts.{found};
ghost use Rattle.stk_script_reader.specs.Names.{StandsFor};

use indexmap::IndexMap;
use std::alloc::Global;
use stk_base::NoMemory;
use stk_terms::TermId;

/// For each name so far the term that it stands for. The names are where they stand in the text.
#[derive(Drop)]
pub(crate) struct Names<'a> {
    pub(crate) terms: IndexMap<&'a [u8], TermId>,
}

impl<'a> Names<'a> {
    /// No names. It takes no memory.
    pub(crate) fn new(alloc: Global) -> Names<'a>
        ensures { StandsFor result [] }
    {
        Names {
            terms: IndexMap::new(alloc),
        }
    }

    /// The term that a name stands for.
    pub(crate) fn find(&self, name: &[u8]) -> Option<TermId>
        ensures { (names : List (List ℕ × ℕ)) → StandsFor self.now names → option_map (λ id. id.0) result ≡ found names name.now }
    {
        self.terms.get(&name).copied()
    }

    /// One more name.
    pub(crate) fn add(&mut self, name: &'a [u8], term: TermId) -> Result<(), NoMemory>
        ensures { OnOk result ((names : List (List ℕ × ℕ)) → StandsFor self.old names → StandsFor self.new ((name.now, term.0) ∷ names)) }
    {
        self.terms.insert(name, term)?;
        Ok(())
    }
}
