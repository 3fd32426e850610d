// The variables by their scores.
use std::alloc::Global;
use stk_base::NoMemory;
use stk_clauses::Lit;

/// The place of a variable that isn't in the heap.
const NOWHERE: u32 = u32::MAX;

/// A heap of up to 2^64 entries has at most so many levels.
const MOST_LEVELS: usize = 64;

const GROWTH: f64 = 1.0 / 0.95;

const TOO_LARGE: f64 = 1e100;

const SMALLER: f64 = 1e-100;

/// A variable of the heap with its place and its score.
#[derive(Clone, Copy)]
struct Entry {
    at: usize,
    variable: u32,
    score: f64,
}

/// The variables that a search may try, by their scores, and the sign that each had last.
///
/// `heap` is a binary heap of variables, the highest score first, and `places` tells of each variable where it stands
/// there. `step` is what a variable's score grows by when a conflict raises it; it grows itself, so that older
/// conflicts count for less. `raised` has for each variable the number of the last conflict that raised it, of
/// `conflicts`.
#[derive(Drop)]
pub struct Order {
    heap: Vec<u32>,
    places: Vec<u32>,
    scores: Vec<f64>,
    positive: Vec<bool>,
    step: f64,
    raised: Vec<u32>,
    conflicts: u32,
}

/// A place as a number of 32 bits. The heap has at most one place for each variable.
fn place_number(at: usize) -> u32 {
    (at & 0xffff_ffff) as u32
}

impl Order {
    /// All variables below `vars`, with equal scores. All memory is taken here.
    pub(crate) fn reserve(alloc: Global, vars: u32) -> Result<Order, NoMemory> {
        let mut heap = Vec::with_capacity(alloc, vars as usize)?;
        let mut places = Vec::with_capacity(alloc, vars as usize)?;
        for variable in 0..vars {
            heap.push(variable)?;
            places.push(variable)?;
        }
        let scores = vec![in alloc; 0.0; vars as usize]?;
        let positive = vec![in alloc; false; vars as usize]?;
        let raised = vec![in alloc; 0u32; vars as usize]?;
        Ok(Order {
            heap,
            places,
            scores,
            positive,
            step: 1.0,
            raised,
            conflicts: 0,
        })
    }

    fn score(&self, variable: u32) -> f64 {
        if (variable as usize) < self.scores.len() {
            self.scores[variable as usize]
        } else {
            0.0
        }
    }

    fn place(&self, variable: u32) -> u32 {
        if (variable as usize) < self.places.len() {
            self.places[variable as usize]
        } else {
            NOWHERE
        }
    }

    /// Puts a variable to a place of the heap.
    fn put_at(&mut self, at: usize, variable: u32) {
        if at < self.heap.len() && (variable as usize) < self.places.len() {
            self.heap[at] = variable;
            self.places[variable as usize] = place_number(at);
        }
    }

    /// Moves the variable at a place up, as far as one with no lower score.
    fn move_up(&mut self, from: usize) {
        if from >= self.heap.len() {
            return;
        }
        let variable = self.heap[from];
        let score = self.score(variable);
        let mut at = from;
        for _turn in 0..MOST_LEVELS {
            if at == 0 || at >= self.heap.len() {
                break;
            }
            let parent = (at - 1) / 2;
            let above = self.heap[parent];
            if self.score(above) >= score {
                break;
            }
            self.put_at(at, above);
            at = parent;
        }
        self.put_at(at, variable);
    }

    /// What stands at a place of the heap, if the heap goes that far.
    fn entry(&self, at: usize) -> Option<Entry> {
        if at >= self.heap.len() {
            return None;
        }
        let variable = self.heap[at];
        let score = self.score(variable);
        Some(Entry {
            at,
            variable,
            score,
        })
    }

    /// What stands below a place with the higher score, if something does.
    fn higher_below(&self, at: usize) -> Option<Entry> {
        let left = self.entry(at.wrapping_mul(2).wrapping_add(1))?;
        match self.entry(left.at.wrapping_add(1)) {
            None => Some(left),
            Some(right) => {
                if right.score > left.score {
                    Some(right)
                } else {
                    Some(left)
                }
            }
        }
    }

    /// Moves the variable at a place down, as far as one with no higher score.
    fn move_down(&mut self, from: usize) {
        if from >= self.heap.len() {
            return;
        }
        let variable = self.heap[from];
        let score = self.score(variable);
        let mut at = from;
        for _turn in 0..MOST_LEVELS {
            let Some(below) = self.higher_below(at) else {
                break;
            };
            if below.score <= score {
                break;
            }
            self.put_at(at, below.variable);
            at = below.at;
        }
        self.put_at(at, variable);
    }

    /// Takes a variable with the highest score out, or answers `None` when there is none.
    pub(crate) fn take(&mut self) -> Option<u32> {
        if self.heap.len() == 0 {
            return None;
        }
        let top = self.heap[0];
        if (top as usize) < self.places.len() {
            self.places[top as usize] = NOWHERE;
        }
        let last = self.heap.pop()?;
        if self.heap.len() > 0 {
            self.put_at(0, last);
            self.move_down(0);
        }
        Some(top)
    }

    /// Puts the variable of a literal that was true back, and keeps the literal's sign.
    pub(crate) fn put_back(&mut self, lit: Lit) {
        let variable = lit.variable();
        if (variable as usize) < self.positive.len() {
            self.positive[variable as usize] = !lit.is_negated();
        }
        if (variable as usize) < self.places.len() && self.places[variable as usize] == NOWHERE {
            let at = self.heap.len();
            if let Ok(()) = self.heap.push(variable) {
                self.places[variable as usize] = place_number(at);
                self.move_up(at);
            }
        }
    }

    /// The sign that the variable had last: whether its negation is to be tried.
    pub(crate) fn is_negative(&self, variable: u32) -> bool {
        (variable as usize) >= self.positive.len() || !self.positive[variable as usize]
    }

    /// Makes all scores smaller by one factor, which leaves their order.
    fn rescale(&mut self) {
        for score in self.scores.iter_mut() {
            *score *= SMALLER;
        }
        self.step *= SMALLER;
    }

    /// Whether this conflict hasn't raised the variable yet. From now on it has.
    fn is_first(&mut self, variable: u32) -> bool {
        let at = variable as usize;
        if at >= self.raised.len() || self.raised[at] == self.conflicts {
            return false;
        }
        self.raised[at] = self.conflicts;
        true
    }

    /// Raises the score of a variable.
    fn raise_one(&mut self, variable: u32) {
        if (variable as usize) < self.scores.len() {
            self.scores[variable as usize] += self.step;
            if self.scores[variable as usize] > TOO_LARGE {
                self.rescale();
            }
            let at = self.place(variable);
            if at != NOWHERE {
                self.move_up(at as usize);
            }
        }
    }

    /// Begins with the next conflict, whose variables are raised over those of earlier conflicts.
    pub(crate) fn begin(&mut self) {
        self.conflicts = self.conflicts.wrapping_add(1);
        self.step *= GROWTH;
    }

    /// Raises the scores of these variables, of each once in a conflict.
    pub(crate) fn raise(&mut self, literals: &[Lit]) {
        for lit in literals {
            let variable = lit.variable();
            if self.is_first(variable) {
                self.raise_one(variable);
            }
        }
    }
}
