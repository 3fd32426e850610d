// Words with meanings, of which the last of each word is found fast.
ghost use Rattle.std.specs.Prelude.{◌≡◌, [], ◌∷◌, ◌++◌, OnOk, OnErr, ℕ, List};
ghost use Rattle.stk_ctype.specs.Index.{IsIndexOf, last_meaning};

use std::alloc::Global;
use std::collections::BTreeMap;
use stk_base::NoMemory;

/// For each word its last meaning, and for each word that was pushed the meaning that it had before, so that a push can
/// be undone.
#[derive(Drop)]
pub struct Index<M> {
    pub last: BTreeMap<Vec<u8>, M>,
    pub earlier: Vec<Option<M>>,
}

impl<M: Copy> Index<M> {
    /// No words. It takes no memory.
    pub fn new(alloc: Global) -> Index<M>
        ensures { IsIndexOf result [] }
    {
        Index {
            last: BTreeMap::new(alloc),
            earlier: Vec::new(alloc),
        }
    }

    /// Puts a word with a meaning behind the others. After `NoMemory` the index keeps what it kept.
    pub fn push(&mut self, alloc: Global, word: &[u8], meaning: M) -> Result<(), NoMemory>
        ensures added { OnOk result ((words : List (List ℕ × M)) → IsIndexOf self.old words → IsIndexOf self.new (words ++ (word.now, meaning) ∷ [])) }
        ensures kept { OnErr result ((words : List (List ℕ × M)) → IsIndexOf self.old words → IsIndexOf self.new words) }
    {
        let key = Vec::from_slice(alloc, word)?;
        let earlier = self.last.get(word).copied();
        self.earlier.push(earlier)?;
        let Ok(_) = self.last.insert(key, meaning) else {
            self.earlier.pop();
            return Err(NoMemory);
        };
        Ok(())
    }

    /// Takes the last word away, which is this one. It takes no memory.
    pub fn pop(&mut self, word: &[u8])
        ensures { (words : List (List ℕ × M)) → (meaning : M) → IsIndexOf self.old (words ++ (word.now, meaning) ∷ []) → IsIndexOf self.new words }
    {
        match self.earlier.pop() {
            Some(Some(meaning)) => {
                if let Some(last) = self.last.get_mut(word) {
                    *last = meaning;
                }
            }
            Some(None) => {
                self.last.remove(word);
            }
            None => {}
        }
    }

    /// The last meaning of a word.
    pub fn get(&self, word: &[u8]) -> Option<M>
        ensures { (words : List (List ℕ × M)) → IsIndexOf self.now words → result ≡ last_meaning word.now words }
    {
        self.last.get(word).copied()
    }
}
