//! The labels of a `switch`.

ghost use Rattle.std.specs.Prelude.{◌≡◌, ◌≤◌, ◌++◌, List, length, map, vec_len, OnOk, IfOk};
ghost use Rattle.stk_ctype.specs.Structs.{Structs, structs_of};
ghost use Rattle.stk_tree.specs.View.{view_expression, view_label, labels};
ghost use Rattle.stk_type_rules.specs.Facts.{AreSoundFacts, Fact, fact_of};
ghost use Rattle.stk_type_rules.specs.Outcome.{Gives, MakesFact};
ghost use Rattle.stk_typing.specs.Locals.{AreSoundLocals, local_of};
ghost use Rattle.stk_typing.specs.Typing.{expression_typed};
ghost use Rattle.stk_ctype.specs.Types.{type_of};
ghost use Rattle.stk_ctype.specs.Sound.{IsSound};
ghost use Rattle.stk_statements.specs.Places.{body_in};
ghost use Rattle.stk_numbers.specs.Kinds.{promote, wrap};
ghost use Rattle.stk_function_types.specs.Sections.{Labelled, carried, label_typed, labels_typed, last_numbered, number_in, numbered, section_rule, unlabelled, with_case, with_default, with_number_of};
ghost use Rattle.stk_statements.specs.Rows.{IsLabelled};

use crate::forms::test;
use crate::places::Context;
use crate::rules::unless_two;
use std::alloc::Global;
use std::collections::BTreeSet;
use stk_base::NoMemory;
use stk_ctype::IntKind;
use stk_numbers::{promote, wrap};
use stk_tree::{Expr, Label};
use stk_type_rules::{Broken, Constancy, NodeFact, Untyped, fact};
use stk_typing::Locals;

/// The labels of a `switch` so far: the numbers of its cases, whether there is a `default`, and of the section at hand
/// whether a label stood before, and whether a case has no number.
#[derive(Drop)]
pub struct Labels {
    pub cases: BTreeSet<i128, Global>,
    pub has_default: bool,
    pub twice: bool,
    pub improper: bool,
}

// A number in the promoted kind of the controlling expression, which has this kind.
fn promoted(kind: IntKind, number: i128) -> i128
    ensures { result ≡ wrap (promote kind) number }
{
    wrap(promote(kind), number)
}

// The number that a constant expression has.
fn number_in(constancy: Constancy) -> Option<i128>
    ensures { result ≡ number_in constancy }
{
    match constancy {
        Constancy::Varies | Constancy::Violates => None,
        Constancy::Number(number) => Some(number),
    }
}

impl Labels {
    /// No label.
    pub fn none(alloc: Global) -> Labels
        ensures { IsLabelled unlabelled result }
    {
        Labels {
            cases: BTreeSet::new(alloc),
            has_default: false,
            twice: false,
            improper: false,
        }
    }

    /// A section begins.
    pub fn carry(&mut self)
        ensures { (l : Labelled) → IsLabelled l self.old → IsLabelled (carried l) self.new }
    {
        self.twice = false;
        self.improper = false;
    }

    // A `default`.
    fn add_default(&mut self)
        ensures { (l : Labelled) → IsLabelled l self.old → IsLabelled (with_default l) self.new }
    {
        self.twice = self.twice || self.has_default;
        self.has_default = true;
    }

    // A case with this number.
    fn add_number(&mut self, number: i128) -> Result<(), NoMemory>
        ensures { OnOk result ((l : Labelled) → IsLabelled l self.old → IsLabelled (with_number_of number l) self.new) }
    {
        let is_new = self.cases.insert(number)?;
        self.twice = self.twice || !is_new;
        Ok(())
    }

    // A case with this constant expression.
    fn add_case(&mut self, kind: Option<IntKind>, constancy: Constancy) -> Result<(), NoMemory>
        ensures { OnOk result ((l : Labelled) → IsLabelled l self.old → IsLabelled (with_case kind l constancy) self.new) }
    {
        match constancy {
            Constancy::Varies | Constancy::Violates => {
                self.improper = true;
                Ok(())
            }
            Constancy::Number(number) => match kind {
                None => Ok(()),
                Some(kind) => self.add_number(promoted(kind, number)),
            },
        }
    }

    /// What the rules make of a section.
    pub fn rule(&self) -> Result<NodeFact, Broken>
        ensures fact { (l : Labelled) → IsLabelled l self.now → MakesFact (section_rule l) result }
        ensures sound { (structs : Structs) → IfOk result (λ f. IsSound structs (type_of f.ty)) }
    {
        unless_two(self.improper, 5, self.twice, 12)
    }
}

// The last of the facts behind so many ones, where there is one, has its constant as its number.
fn number_last(facts: &mut Vec<NodeFact>, before: usize)
    requires { before ≤ vec_len facts.old }
    ensures is { (a t : List Fact) → length a ≡ before → map fact_of facts.old.items ≡ a ++ t → map fact_of facts.new.items ≡ a ++ last_numbered t }
    ensures sound { (structs : Structs) → AreSoundFacts structs (map fact_of facts.old.items) → AreSoundFacts structs (map fact_of facts.new.items) }
{
    let count = facts.len();
    if before < count {
        let number = number_in(fact(facts, count - 1).constancy);
        facts[count - 1].number = number;
    }
}

// Types the expression of a case. The answer is whether it is constant.
fn case(
    p: &Context,
    locals: &Locals,
    facts: &mut Vec<NodeFact>,
    e: &Expr,
) -> Result<Constancy, Untyped>
    requires locals { AreSoundLocals (structs_of p.now.file.names.now) (map local_of locals.now) }
    requires sound { AreSoundFacts (structs_of p.now.file.names.now) (map fact_of facts.old.items) }
    ensures gives { Gives (λ x c. c ≡ x.constancy) (numbered (expression_typed (body_in p.now locals.now).scope (view_expression e.now))) result (map fact_of facts.old.items) (map fact_of facts.new.items) }
    ensures sound { OnOk result (AreSoundFacts (structs_of p.now.file.names.now) (map fact_of facts.new.items)) }
{
    let before = facts.len();
    let at = test(p, locals, facts, e)?;
    let constancy = fact(facts, at).constancy;
    number_last(facts, before);
    Ok(constancy)
}

// Types a label.
fn label(
    p: &Context,
    locals: &Locals,
    facts: &mut Vec<NodeFact>,
    kind: Option<IntKind>,
    all: &mut Labels,
    x: &Label,
) -> Result<(), Untyped>
    requires locals { AreSoundLocals (structs_of p.now.file.names.now) (map local_of locals.now) }
    requires sound { AreSoundFacts (structs_of p.now.file.names.now) (map fact_of facts.old.items) }
    ensures gives { (l : Labelled) → IsLabelled l all.old → Gives (λ m v. IsLabelled m all.new) (label_typed (body_in p.now locals.now).scope kind l (view_label x.now)) result (map fact_of facts.old.items) (map fact_of facts.new.items) }
    ensures sound { OnOk result (AreSoundFacts (structs_of p.now.file.names.now) (map fact_of facts.new.items)) }
{
    match x {
        Label::Default => {
            all.add_default();
            Ok(())
        }
        Label::Case(e) => {
            let constancy = case(p, locals, facts, e)?;
            all.add_case(kind, constancy)?;
            Ok(())
        }
    }
}

/// Types the labels of a section.
pub(crate) fn put_labels(
    p: &Context,
    locals: &Locals,
    facts: &mut Vec<NodeFact>,
    kind: Option<IntKind>,
    all: &mut Labels,
    list: &[Label],
) -> Result<(), Untyped>
    requires locals { AreSoundLocals (structs_of p.now.file.names.now) (map local_of locals.now) }
    requires sound { AreSoundFacts (structs_of p.now.file.names.now) (map fact_of facts.old.items) }
    ensures gives { (l : Labelled) → IsLabelled l all.old → Gives (λ m v. IsLabelled m all.new) (labels_typed (body_in p.now locals.now).scope kind l (labels (map view_label list.now))) result (map fact_of facts.old.items) (map fact_of facts.new.items) }
    ensures sound { OnOk result (AreSoundFacts (structs_of p.now.file.names.now) (map fact_of facts.new.items)) }
{
    for x in list {
        label(p, locals, facts, kind, all, x)?;
    }
    Ok(())
}
