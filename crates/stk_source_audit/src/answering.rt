// Who answers for a source.
ghost use Rattle.std.specs.Prelude.{◌≡◌, ◌≤◌, ℕ, Some, None, option_map, length, IfOk, IfSome, MatchOption};
ghost use Rattle.std.specs.List.{Contains};
ghost use Rattle.stk_base.specs.Limits.{most_bytes};
ghost use Rattle.stk_lex.specs.Cut.{AreSpans};
ghost use Rattle.stk_lex.specs.Units.{AreJoined};
ghost use Rattle.stk_tree.specs.Syntax.{FunctionTree};
ghost use Rattle.stk_tree.specs.View.{view_function, view_unit};
ghost use Rattle.stk_numbers.specs.declared.conditions.Candidate.{Candidate as Asked};
ghost use Rattle.stk_numbers.specs.declared.conditions.Condition.{Condition as Violated};
ghost use Rattle.stk_numbers.specs.Taken.{number_of};
ghost use Rattle.stk_bundle.specs.Claims.{candidate_number};
ghost use Rattle.stk_type_laws.specs.Orderly.{AreOrderly};
ghost use Rattle.stk_units.specs.Functions.{IsDefinition};
ghost use Rattle.stk_source_audit.specs.Taking.{HasTaken};
ghost use Rattle.stk_source_audit.specs.Keeping.{IsCutWell};

use crate::formulas::formula_of;
use crate::judged::{JudgedFunction, function_of};
use crate::lists::{FunctionLists, unit_lists};
use crate::runs::{hit_table, is_answer, none_answers};
use crate::units::{FoundUnit, SourceText, find_unit};
use std::alloc::Global;
use std::marker::Model;
use std::mem;
use stk_audit::Answering;
use stk_base::{Boxed, NoMemory};
use stk_clauses::Cnf;
use stk_ctype::Names;
use stk_hits::HitTable;
use stk_lex::{Piece, Token};
use stk_numbers::{CandKind, Candidate, Condition, Kinds};
use stk_tree::Unit;

/// A function that is taken up: where it begins, the kinds of conditions that are taken out, its unit, and its lists.
#[derive(Drop)]
pub(crate) struct FunctionAtHand {
    pub at: u32,
    pub without: Kinds,
    pub unit: Boxed<Unit>,
    pub lists: FunctionLists,
}

/// A function that was looked for, if it is judged, and the units that aren't read yet.
#[derive(Drop)]
pub(crate) struct TakenUp<'a> {
    pub hand: Option<FunctionAtHand>,
    pub rest: &'a [Piece],
}

/// Reads units up to the one that begins at a byte, and takes up the function that it defines, if it is judged. The
/// names in force become those that the units leave. After want of memory the names are some of those that units leave.
fn take_function<'a>(
    text: &SourceText,
    pieces: &'a [Piece],
    names: &mut Names,
    without: Kinds,
    at: u64,
) -> Result<TakenUp<'a>, NoMemory>
    requires joined { (from : ℕ) × AreJoined from (length text.now.tokens.now) pieces.now }
    requires few { length text.now.tokens.now ≤ most_bytes }
    requires spans { AreSpans (length text.now.bytes.now) 0 text.now.tokens.now }
    requires orderly { AreOrderly names.old }
    ensures { IfOk result (λ x. HasTaken text.now.bytes.now text.now.tokens.now names.old pieces.now without at x.hand names.new x.rest.now) }
{
    let FoundUnit { tree, rest } = find_unit(text, pieces, names, at)?;
    let Some(unit) = tree else {
        return Ok(TakenUp { hand: None, rest });
    };
    match unit_lists(text.alloc, text.bytes, unit.get(), names, without)? {
        Some(lists) => Ok(TakenUp {
            hand: Some(FunctionAtHand {
                at: at as u32,
                without,
                unit,
                lists,
            }),
            rest,
        }),
        None => Ok(TakenUp { hand: None, rest }),
    }
}

/// The number of a kind of candidates, from 1 to 4.
fn candidate_number(kind: CandKind) -> u64
    ensures { result ≡ candidate_number kind }
{
    match kind {
        CandKind::Arm => 1,
        CandKind::AlwaysTrue => 2,
        CandKind::AlwaysFalse => 3,
        CandKind::Algebra => 4,
    }
}

/// The candidate at the node with this number that is of the kind with this number, if one of these is.
fn candidate_among(candidates: &[Candidate], node: u64, kind: u64) -> Option<Candidate>
    ensures { MatchOption result ((c : Asked) → Contains candidates.now c → c.node ≡ node → candidate_number c.kind ≡ kind → ⊥) (λ c. Contains candidates.now c × (c.node ≡ node) × (candidate_number c.kind ≡ kind)) }
{
    for candidate in candidates {
        if u64::from(candidate.node) == node && candidate_number(candidate.kind) == kind {
            return Some(*candidate);
        }
    }
    None
}

/// The same of conditions, whose kinds have numbers from 1 to 8.
fn condition_among(conditions: &[Condition], node: u64, kind: u64) -> Option<Condition>
    ensures { MatchOption result ((k : Violated) → Contains conditions.now k → k.node ≡ node → number_of k.kind ≡ kind → ⊥) (λ k. Contains conditions.now k × (k.node ≡ node) × (number_of k.kind ≡ kind)) }
{
    for condition in conditions {
        if u64::from(condition.node) == node && u64::from(condition.kind.number()) == kind {
            return Some(*condition);
        }
    }
    None
}

/// The function at hand, as what is asked of it takes it.
fn judged_at<'a>(
    alloc: Global,
    bytes: &'a [u8],
    names: &'a Names,
    hand: &'a FunctionAtHand,
) -> JudgedFunction<'a>
    requires { (f : FunctionTree) × IsDefinition (view_unit hand.now.unit) f }
    ensures bytes { result.bytes.now ≡ bytes.now }
    ensures unit { result.unit.now ≡ hand.now.unit }
    ensures function { IsDefinition (view_unit hand.now.unit) (view_function result.function.now) }
    ensures names { result.names.now ≡ names.now }
    ensures without { result.without ≡ hand.now.without }
{
    let unit = hand.unit.get();
    JudgedFunction {
        alloc,
        bytes,
        unit,
        function: function_of(unit),
        names,
        without: hand.without,
    }
}

/// Who answers for a source that was cut into its units: these are read one after the other, as functions are taken up,
/// and the function at hand is kept with the names that it leaves in force. The types of a function and the tables of
/// its path runs are made anew for each question that needs them; the table of what all its runs hit is made once.
///
/// Contracts see it as the source and the place of the function at hand.
#[derive(Drop)]
pub struct SourceAnswers<'a> {
    text: SourceText<'a>,
    pieces: &'a [Piece],
    // the units that aren't read yet, and the names in force before them
    rest: &'a [Piece],
    names: Names,
    hand: Option<FunctionAtHand>,
    hits: Option<HitTable>,
}

impl<'a> Model for SourceAnswers<'a> {
    ghost use Rattle.stk_source_audit.specs.Sources.{SourceAtHand};
    ghost use Rattle.stk_source_audit.specs.Keeping.{hand_in, IsKept};

    ghost Value = { SourceAtHand };

    ghost view = { λ s. record { source = record { bytes = s.text.bytes.now; tokens = s.text.tokens.now; pieces = s.pieces.now }; hand = hand_in s.hand } };

    ghost invariant = { λ s. IsKept (record { bytes = s.text.bytes.now; tokens = s.text.tokens.now; pieces = s.pieces.now }) s.rest.now s.names s.hand s.hits };
}

impl<'a> SourceAnswers<'a> {
    /// Nothing is at hand yet. The tokens are those of the source that skimming keeps, and the pieces its units among
    /// them. It takes no memory; later calls take theirs from `alloc`.
    pub fn new(
        alloc: Global,
        bytes: &'a [u8],
        tokens: &'a [Token],
        pieces: &'a [Piece],
    ) -> SourceAnswers<'a>
        requires { IsCutWell (record { bytes = bytes.now; tokens = tokens.now; pieces = pieces.now }) }
        ensures { result ≡ record { source = record { bytes = bytes.now; tokens = tokens.now; pieces = pieces.now }; hand = None } }
    {
        SourceAnswers {
            text: SourceText {
                alloc,
                bytes,
                tokens,
            },
            pieces,
            rest: pieces,
            names: Names::new(alloc),
            hand: None,
            hits: None,
        }
    }
}

impl<'a> Answering for SourceAnswers<'a> {
    ghost use Rattle.stk_source_audit.specs.Sources.{CutSource, source_world};

    ghost identity = { CutSource };

    ghost about = { λ s. s.source };

    ghost world = { source_world };

    ghost hand = { λ s. s.hand };

    fn source_length(&self) -> u64 {
        self.text.bytes.len() as u64
    }

    fn take_up(&mut self, without: Kinds, at: u64) -> Result<bool, NoMemory> {
        let text = self.text;
        let pieces = self.rest;
        let mut names = mem::replace(&mut self.names, Names::new(text.alloc));
        self.rest = self.pieces;
        self.hand = None;
        self.hits = None;
        let TakenUp { hand, rest } = take_function(&text, pieces, &mut names, without, at)?;
        if hand.is_none() {
            return Ok(false);
        }
        self.names = names;
        self.rest = rest;
        self.hand = hand;
        Ok(true)
    }

    fn candidate(&self, node: u64, kind: u64) -> Option<Candidate> {
        let Some(hand) = &self.hand else {
            unreachable!()
        };
        candidate_among(hand.lists.candidates.as_slice(), node, kind)
    }

    fn condition(&self, node: u64, kind: u64) -> Option<Condition> {
        let Some(hand) = &self.hand else {
            unreachable!()
        };
        condition_among(hand.lists.conditions.as_slice(), node, kind)
    }

    fn tries_all(&self) -> bool {
        let Some(hand) = &self.hand else {
            unreachable!()
        };
        hand.lists.tries_all
    }

    fn is_answer(
        &self,
        candidate: Candidate,
        set: &[Condition],
        start: &[u64],
    ) -> Result<bool, NoMemory> {
        let Some(hand) = &self.hand else {
            unreachable!()
        };
        let judged = judged_at(self.text.alloc, self.text.bytes, &self.names, hand);
        is_answer(&judged, hand.lists.kinds.as_slice(), candidate, set, start)
    }

    fn none_answers(&mut self, candidate: Candidate, set: &[Condition]) -> Result<bool, NoMemory> {
        let Some(hand) = &self.hand else {
            unreachable!()
        };
        if let Some(table) = &self.hits {
            return none_answers(self.text.alloc, table, candidate, set);
        }
        let judged = judged_at(self.text.alloc, self.text.bytes, &self.names, hand);
        let table = hit_table(&judged, hand.lists.kinds.as_slice())?;
        let none = none_answers(self.text.alloc, &table, candidate, set)?;
        self.hits = Some(table);
        Ok(none)
    }

    fn clauses(&mut self, candidate: Candidate, set: &[Condition]) -> Result<Cnf, NoMemory> {
        let Some(hand) = &self.hand else {
            unreachable!()
        };
        let judged = judged_at(self.text.alloc, self.text.bytes, &self.names, hand);
        formula_of(&judged, hand.lists.candidates.as_slice(), candidate, set)
    }
}
