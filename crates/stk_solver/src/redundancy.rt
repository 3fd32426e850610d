// Which literals of a clause to leave out, since they follow from the others. No clause rests on it.
ghost use Rattle.std.specs.Prelude.{◌≡◌, ◌*◌, ◌<◌};
ghost use Rattle.stk_solver.specs.Marking.{IsNoted};

use crate::marks::Marks;
use std::alloc::Global;
use stk_base::NoMemory;
use stk_clauses::{Lit, Store};
use stk_propagate::Trail;

/// At most so many looks at literals of reasons for one literal of a clause.
const MOST_LOOKS: usize = 100_000;

/// Whether a true literal follows from the marked ones by its reasons, as far as was looked.
#[derive(Clone, Copy, PartialEq, Eq)]
enum Standing {
    Unknown,
    Follows,
    Stays,
}

/// The standing of each variable's literal; the variables whose standing is known; the literals whose reasons are being
/// gone through, with how far; and the places of the literals that follow from the marked ones.
#[derive(Drop)]
pub(crate) struct Redundancy {
    standings: Vec<Standing>,
    known: Vec<u32>,
    waiting: Vec<(Lit, usize)>,
    places: Vec<usize>,
}

/// The clause that made a literal true, if it has one.
pub(crate) fn reason_of<'a>(
    trail: &Trail,
    store: &'a Store,
    lit: Lit,
    vars: u32,
) -> Option<&'a [Lit]>
    requires { trail.now.assigned.vars ≡ vars }
{
    if lit.variable() >= vars {
        return None;
    }
    match trail.reason(lit) {
        None => None,
        Some(id) => {
            if id < store.count() {
                Some(store.clause(id))
            } else {
                None
            }
        }
    }
}

/// One bit of 64 for the level of a true literal; none for level 0.
fn level_bit(trail: &Trail, lit: Lit, vars: u32) -> u64
    requires { trail.now.assigned.vars ≡ vars }
{
    if lit.variable() >= vars {
        return 0;
    }
    let level = match trail.level(lit) {
        None => 0,
        Some(level) => level,
    };
    if level == 0 { 0 } else { 1 << (level % 64) }
}

/// The levels of the marked literals.
fn levels_of(marks: &Marks, trail: &Trail) -> u64
    requires noted { IsNoted marks.now }
    requires vars { trail.now.assigned.vars ≡ marks.now.vars }
{
    let mut bits = 0;
    for lit in &marks.noted {
        if marks.is_now_marked(*lit) {
            bits |= level_bit(trail, *lit, marks.vars);
        }
    }
    bits
}

/// What a look at one literal of a reason says of the literal that has the reason.
enum Look {
    /// The reason has no further literals, so the literal follows.
    Done,
    /// The literal at hand is marked, or follows.
    Next,
    /// The literal at hand has to be looked at first.
    Deeper(Lit),
    /// The literal at hand doesn't follow.
    Fails,
}

impl Redundancy {
    /// No standing is known.
    pub(crate) fn reserve(alloc: Global, vars: u32) -> Result<Redundancy, NoMemory> {
        let standings = vec![in alloc; Standing::Unknown; vars as usize]?;
        Ok(Redundancy {
            standings,
            known: Vec::new(alloc),
            waiting: Vec::new(alloc),
            places: Vec::new(alloc),
        })
    }

    /// The places of the literals that follow, falling.
    pub(crate) fn places(&self) -> &[usize] {
        &self.places
    }

    fn standing(&self, lit: Lit) -> Standing {
        let variable = lit.variable() as usize;
        if variable < self.standings.len() {
            self.standings[variable]
        } else {
            Standing::Stays
        }
    }

    fn set_standing(&mut self, lit: Lit, standing: Standing) -> Result<(), NoMemory> {
        let variable = lit.variable() as usize;
        if variable < self.standings.len() {
            self.known.push(lit.variable())?;
            self.standings[variable] = standing;
        }
        Ok(())
    }

    /// Forgets all standings.
    fn forget(&mut self) {
        for variable in &self.known {
            if (*variable as usize) < self.standings.len() {
                self.standings[*variable as usize] = Standing::Unknown;
            }
        }
        self.known.clear();
        self.waiting.clear();
        self.places.clear();
    }

    /// Looks at one literal of the reason of `lit`.
    fn look(
        &self,
        marks: &Marks,
        trail: &Trail,
        store: &Store,
        bits: u64,
        lit: Lit,
        at: usize,
    ) -> Look
        requires noted { IsNoted marks.now }
        requires vars { trail.now.assigned.vars ≡ marks.now.vars }
    {
        let Some(reason) = reason_of(trail, store, lit, marks.vars) else {
            return Look::Fails;
        };
        if at >= reason.len() {
            return Look::Done;
        }
        let other = reason[at].negated();
        if other.variable() == lit.variable() || marks.is_now_marked(other) {
            return Look::Next;
        }
        match self.standing(other) {
            Standing::Follows => Look::Next,
            Standing::Stays => Look::Fails,
            Standing::Unknown => {
                let bit = level_bit(trail, other, marks.vars);
                if bit & bits == bit {
                    Look::Deeper(other)
                } else {
                    Look::Fails
                }
            }
        }
    }

    /// The literals whose reasons are being gone through don't follow.
    fn fail(&mut self) -> Result<(), NoMemory> {
        for _turn in 0..self.waiting.len() {
            if let Some((lit, _)) = self.waiting.pop() {
                self.set_standing(lit, Standing::Stays)?;
            }
        }
        Ok(())
    }

    /// Whether a literal follows by its reason: goes through the reasons that it rests on, without recursion.
    fn go_through(
        &mut self,
        marks: &Marks,
        trail: &Trail,
        store: &Store,
        bits: u64,
    ) -> Result<(), NoMemory>
        requires noted { IsNoted marks.now }
        requires vars { trail.now.assigned.vars ≡ marks.now.vars }
    {
        for _turn in 0..MOST_LOOKS {
            let Some((lit, at)) = self.waiting.pop() else {
                return Ok(());
            };
            match self.look(marks, trail, store, bits, lit, at) {
                Look::Done => {
                    self.set_standing(lit, Standing::Follows)?;
                    if lit.variable() < marks.vars
                        && let Some(place) = trail.place(lit)
                    {
                        self.places.push(place)?;
                    }
                }
                Look::Next => self.waiting.push((lit, at.wrapping_add(1)))?,
                Look::Deeper(other) => {
                    self.waiting.push((lit, at.wrapping_add(1)))?;
                    self.waiting.push((other, 0))?;
                }
                Look::Fails => {
                    self.waiting.push((lit, at))?;
                    return self.fail();
                }
            }
        }
        self.fail()
    }

    /// Finds the marked literals that follow from others, and what they rest on.
    pub(crate) fn find(
        &mut self,
        marks: &Marks,
        trail: &Trail,
        store: &Store,
    ) -> Result<(), NoMemory>
        requires noted { IsNoted marks.now }
        requires vars { trail.now.assigned.vars ≡ marks.now.vars }
    {
        self.forget();
        let bits = levels_of(marks, trail);
        for lit in &marks.noted {
            if marks.is_now_marked(*lit) && self.standing(*lit) == Standing::Unknown {
                self.waiting.push((*lit, 0))?;
                self.go_through(marks, trail, store, bits)?;
            }
        }
        self.places.sort_unstable();
        self.places.as_mut_slice().reverse();
        Ok(())
    }
}
