// What is kept beside the entries, so that look-ups are fast.
ghost use Rattle.std.specs.Prelude.{◌≡◌, ◌<◌, ◌-◌, ◌^◌, ◌∷◌, [], ◌++◌, length, OnOk, OnErr};
ghost use Rattle.stk_ctype.specs.Structs.{structs_of};
ghost use Rattle.stk_ctype.specs.Sound.{RestsOn};
ghost use Rattle.stk_ctype.specs.Facts.{AreFactsOf, IsNewLayout};

use crate::index::Index;
use crate::{NameEntry, Tag};
use std::alloc::Global;
use stk_base::{List, NoMemory};

/// How a struct that has its members is laid out: the position of the entry with its members, the place of each among
/// them by its name, the offset of each, its size and its alignment, in bytes.
#[derive(Drop)]
pub struct Layout {
    pub at: u32,
    pub places: Index<usize>,
    pub offsets: Vec<u64>,
    pub size: u64,
    pub alignment: u64,
}

/// The last entry of each name, the last meaning of each tag, and the layout of each struct by its number.
#[derive(Drop)]
pub struct Facts {
    pub symbols: Index<u32>,
    pub tags: Index<Tag>,
    pub layouts: Vec<Option<Layout>>,
}

impl Facts {
    /// The facts of no entries.
    pub fn new(alloc: Global) -> Facts
        ensures { AreFactsOf result [] }
    {
        Facts {
            symbols: Index::new(alloc),
            tags: Index::new(alloc),
            layouts: Vec::new(alloc),
        }
    }

    /// Notes one entry behind others, with the layout of the struct that it gives members.
    pub fn note(
        &mut self,
        alloc: Global,
        entries: &[NameEntry],
        entry: &NameEntry,
        layout: Option<Layout>,
    ) -> Result<(), NoMemory>
        requires room { length entries.now < 2 ^ 32 - 1 }
        requires facts { AreFactsOf self.old entries.now }
        requires rests { RestsOn (structs_of entries.now) entry.now }
        requires layout { IsNewLayout entries.now entry.now layout }
        ensures noted { OnOk result (AreFactsOf self.new (entries.now ++ entry.now ∷ [])) }
        ensures kept { OnErr result (AreFactsOf self.new entries.now) }
    {
        match entry {
            NameEntry::Symbol { name, symbol: _ } => {
                let place = entries.len() as u32;
                self.symbols.push(alloc, name.as_slice(), place)
            }
            NameEntry::Struct { tag } => self.note_struct(alloc, entries, tag),
            NameEntry::Members { id, members: _ } => {
                self.layouts[*id as usize] = layout;
                Ok(())
            }
            NameEntry::Enumeration { tag } => self
                .tags
                .push(alloc, tag.as_slice(), Tag::Enumeration),
        }
    }

    /// Notes a struct behind these entries, with its tag where it has one.
    fn note_struct(
        &mut self,
        alloc: Global,
        entries: &[NameEntry],
        tag: &Option<List<u8>>,
    ) -> Result<(), NoMemory>
        requires room { length entries.now < 2 ^ 32 - 1 }
        requires facts { AreFactsOf self.old entries.now }
        ensures noted { OnOk result (AreFactsOf self.new (entries.now ++ NameEntry.Struct tag.now ∷ [])) }
        ensures kept { OnErr result (AreFactsOf self.new entries.now) }
    {
        let id = self.layouts.len() as u32;
        self.layouts.push(None)?;
        let Some(tag) = tag else {
            return Ok(());
        };
        let Ok(()) = self.tags.push(alloc, tag.as_slice(), Tag::Struct(id)) else {
            self.layouts.pop();
            return Err(NoMemory);
        };
        Ok(())
    }

    /// Takes back the note of the last entry, which stood behind these.
    pub fn forget(&mut self, entries: &[NameEntry], entry: &NameEntry)
        requires { AreFactsOf self.old (entries.now ++ entry.now ∷ []) }
        ensures { AreFactsOf self.new entries.now }
    {
        match entry {
            NameEntry::Symbol { name, symbol: _ } => self.symbols.pop(name.as_slice()),
            NameEntry::Struct { tag } => {
                self.layouts.pop();
                if let Some(tag) = tag {
                    self.tags.pop(tag.as_slice());
                }
            }
            NameEntry::Members { id, members: _ } => self.layouts[*id as usize] = None,
            NameEntry::Enumeration { tag } => self.tags.pop(tag.as_slice()),
        }
    }
}
