// Sizes, alignments and members under the names in force.
ghost use Rattle.std.specs.Prelude.{◌≡◌, ◌≤◌, ◌+◌, ◌*◌, length, IfOk, IfSome};
ghost use Rattle.std.specs.Option.{option_copied, option_map};
ghost use Rattle.stk_ctype.specs.Facts.{IsKept, member_words};
ghost use Rattle.stk_ctype.specs.Index.{IsIndexOf};
ghost use Rattle.stk_ctype.specs.Types.{type_of, struct_type};
ghost use Rattle.stk_ctype.specs.Structs.{structs_of, struct_at, size_of, alignment_of, size_limit, offset_behind, end_behind, offsets_behind, greatest_alignment, struct_size, layout_of, round_up, member_of, member_named};
ghost use Rattle.stk_ctype.specs.Innermost.{size_inside};
ghost use Rattle.stk_ctype.specs.Sound.{IsSound, AreMembers};

use crate::facts::Layout;
use crate::index::Index;
use crate::shared_type::{Inmost, count_in, inmost_of};
use crate::{CType, MemberInfo, NameEntry, Names};
use std::alloc::Global;
use stk_base::NoMemory;

/// The greatest size of a type, in bytes.
const SIZE_LIMIT: u64 = 2_147_483_647;

/// The next multiple of an alignment.
fn round_up(alignment: u64, n: u64) -> u64
    requires low { 1 ≤ alignment }
    requires high { alignment ≤ 8 }
    requires room { n ≤ 2 * size_limit }
    ensures value { result ≡ round_up alignment n }
    ensures room { result ≤ n + 7 }
{
    (n + (alignment - 1)) / alignment * alignment
}

impl Names {
    /// How the struct of a number is laid out, where it has its members.
    pub(crate) fn kept(&self, id: u32) -> Option<&Layout>
        ensures { IsKept self.now id (option_copied result) (struct_at (structs_of self.now) id) }
    {
        match self.facts.layouts.get(id as usize) {
            Some(Some(layout)) => Some(layout),
            Some(None) | None => None,
        }
    }

    /// The alignment of a type, in bytes; 1 where no object has it.
    fn alignment_of(&self, ty: &CType) -> u64
        ensures value { result ≡ alignment_of (structs_of self.now) (type_of ty.now) }
        ensures least { 1 ≤ result }
        ensures greatest { result ≤ 8 }
    {
        match inmost_of(ty) {
            Inmost::Bytes(bytes) => bytes,
            Inmost::Struct(id) => self.struct_alignment(id),
            Inmost::Nothing => 1,
        }
    }

    /// The alignment of the struct of a number, in bytes; 1 where it has no members yet.
    fn struct_alignment(&self, id: u32) -> u64
        ensures value { result ≡ alignment_of (structs_of self.now) (struct_type id) }
        ensures least { 1 ≤ result }
        ensures greatest { result ≤ 8 }
    {
        match self.kept(id) {
            Some(layout) => layout.alignment,
            None => 1,
        }
    }

    /// The size of the struct of a number, in bytes, where it has its members.
    fn struct_size(&self, id: u32) -> Option<u64>
        ensures value { result ≡ size_of (structs_of self.now) (struct_type id) }
    {
        match self.kept(id) {
            Some(layout) => Some(layout.size),
            None => None,
        }
    }

    /// The size of what is inside all arrays of a type, in bytes, where it is a complete object.
    fn size_inside(&self, inmost: Inmost) -> Option<u64>
        ensures { result ≡ size_inside (structs_of self.now) inmost }
    {
        match inmost {
            Inmost::Bytes(bytes) => Some(bytes),
            Inmost::Struct(id) => self.struct_size(id),
            Inmost::Nothing => None,
        }
    }

    /// The size of a type in bytes, from 1 to 2,147,483,647 (C11 6.5.3.4).
    ///
    /// `None` exactly where the type isn't a complete object type: it is `void`, a function, an array of unknown size
    /// or a struct that has no members yet. It takes constant time.
    pub fn size_of(&self, ty: &CType) -> Option<u64>
        requires { IsSound (structs_of self.now) (type_of ty.now) }
        ensures { result ≡ size_of (structs_of self.now) (type_of ty.now) }
    {
        // For the prover: the types keep their facts.
        let _ = &self.facts;
        let Some(count) = count_in(ty) else {
            return None;
        };
        let Some(size) = self.size_inside(inmost_of(ty)) else {
            return None;
        };
        Some(count * size)
    }

    /// Where a member stands that comes behind so many bytes, and the bytes up to its end.
    fn place(&self, behind: u64, member: &MemberInfo) -> (u64, u64)
        requires behind { behind ≤ size_limit }
        requires sound { IsSound (structs_of self.now) (type_of member.now.ty) }
        ensures offset { result.0 ≡ offset_behind (structs_of self.now) behind member.now }
        ensures end { result.1 ≡ end_behind (structs_of self.now) behind member.now }
    {
        let offset = round_up(self.alignment_of(&member.ty), behind);
        let size = self.size_of(&member.ty).unwrap_or(0);
        (offset, offset + size)
    }

    /// The size in bytes of a struct with these members, in order (C11 6.7.2.1).
    ///
    /// Each type is sound, and complete but for a last one of unknown array size. `None` exactly where the size isn't
    /// from 1 to 2,147,483,647. It takes no memory.
    pub fn layout(&self, members: &[MemberInfo]) -> Option<u64>
        requires { AreMembers (structs_of self.now) members.now }
        ensures { result ≡ layout_of (structs_of self.now) members.now }
    {
        // For the prover: the types keep their facts.
        let _ = &self.facts;
        let mut behind = 0;
        let mut alignment = 1;
        for member in members {
            let (_, end) = self.place(behind, member);
            if end > SIZE_LIMIT {
                return None;
            }
            behind = end;
            alignment = self.alignment_of(&member.ty).max(alignment);
        }
        let size = round_up(alignment, behind);
        if 1 <= size && size <= SIZE_LIMIT {
            Some(size)
        } else {
            None
        }
    }

    /// How a struct with these members is laid out, which the next entry gives it.
    pub(crate) fn lay_out(&self, members: &[MemberInfo]) -> Result<Layout, NoMemory>
        requires members { AreMembers (structs_of self.now) members.now }
        requires size { struct_size (structs_of self.now) members.now ≤ size_limit }
        ensures at { IfOk result (λ l. l.at ≡ length self.now) }
        ensures places { IfOk result (λ l. IsIndexOf l.places (member_words 0 members.now)) }
        ensures offsets { IfOk result (λ l. l.offsets.items ≡ offsets_behind (structs_of self.now) 0 members.now) }
        ensures size { IfOk result (λ l. l.size ≡ struct_size (structs_of self.now) members.now) }
        ensures alignment { IfOk result (λ l. (l.alignment ≡ greatest_alignment (structs_of self.now) members.now) × (1 ≤ l.alignment) × (l.alignment ≤ 8)) }
    {
        let mut offsets = Vec::new(self.alloc);
        let mut behind = 0;
        let mut alignment = 1;
        for member in members {
            let (offset, end) = self.place(behind, member);
            offsets.push(offset)?;
            behind = end;
            alignment = self.alignment_of(&member.ty).max(alignment);
        }
        Ok(Layout {
            at: self.count(),
            places: places_of(self.alloc, members)?,
            offsets,
            size: round_up(alignment, behind),
            alignment,
        })
    }

    /// The member of a name that a type has: its offset in bytes and its type (C11 6.5.2.3).
    ///
    /// `None` exactly where the type isn't a struct that has a member of this name. The name is given as bytes, and the
    /// member's type is sound. It takes time logarithmic in the number of members.
    pub fn member(&self, ty: &CType, name: &[u8]) -> Option<(u64, &CType)>
        ensures sound { IfSome result (λ p. IsSound (structs_of self.now) (type_of p.1.now)) }
        ensures value { option_map (λ p. (p.0, p.1.now)) result ≡ member_of (structs_of self.now) (type_of ty.now) name.now }
    {
        let CType::Struct(id) = ty else {
            return None;
        };
        let layout = self.kept(*id)?;
        let NameEntry::Members { id: _, members } = &self.entries[layout.at as usize] else {
            return None;
        };
        member_named(members.as_slice(), layout, name)
    }
}

/// The first member of a name among those of a struct that is laid out so.
#[tactic(auto, using(crate::proofs::MemberPlaces::no_member, crate::proofs::MemberPlaces::no_offset, crate::proofs::MemberPlaces::is_within, crate::proofs::MemberPlaces::is_member))]
fn member_named<'a>(
    members: &'a [MemberInfo],
    layout: &Layout,
    name: &[u8],
) -> Option<(u64, &'a CType)>
    requires { IsIndexOf layout.now.places (member_words 0 members.now) }
    ensures { option_map (λ p. (p.0, p.1.now)) result ≡ member_named name.now members.now layout.now.offsets.items }
{
    let Some(place) = layout.places.get(name) else {
        return None;
    };
    let Some(offset) = layout.offsets.get(place) else {
        return None;
    };
    Some((*offset, &members[place].ty))
}

/// The places of members by their names, the first of each name.
fn places_of(alloc: Global, members: &[MemberInfo]) -> Result<Index<usize>, NoMemory>
    ensures { IfOk result (λ places. IsIndexOf places (member_words 0 members.now)) }
{
    let mut places = Index::new(alloc);
    let mut rest = members;
    while let Some((member, before)) = rest.split_last() {
        places.push(alloc, member.name.as_slice(), before.len())?;
        rest = before;
    }
    Ok(places)
}
