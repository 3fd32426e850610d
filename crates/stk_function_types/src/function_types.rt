//! What is known of the nodes of a function definition.

ghost use Rattle.std.specs.Prelude.{◌≡◌, IfSome, IfOk, map};
ghost use Rattle.std.specs.Option.{option_map, option_copied};
ghost use Rattle.stk_base.specs.Text.{text_of};
ghost use Rattle.stk_ctype.specs.Types.{type_of, signature_of};
ghost use Rattle.stk_ctype.specs.Structs.{structs_of};
ghost use Rattle.stk_ctype.specs.Sound.{IsSound, IsSoundSignature};
ghost use Rattle.stk_tree.specs.View.{view_unit};
ghost use Rattle.stk_type_rules.specs.Facts.{AreSoundFacts, fact_of};
ghost use Rattle.stk_function_types.specs.Units.{facts_in, unit_typed, unit_taken, unit_statics};
ghost use Rattle.stk_function_types.specs.Nodes.{typing_in, value_type, declared, constant, is_register, node_span};

use std::alloc::Global;
use std::marker::Model;
use stk_address_taken::{NodeSet, statics_in, taken_in};
use stk_base::{NoMemory, Span};
use stk_ctype::{CType, Names, Signature, Symbol};
use stk_nodes::unit_nodes;
use stk_tree::{Node, Unit};
use stk_type_rules::{NodeFact, TypeRole, is_scalar};

/// A function definition that typing accepts: an input, a unit of it, and the names of file scope, with what is known
/// of each node. Its calls take no memory, and constant time, but for a name that is looked up, which takes logarithmic
/// time.
#[derive(Drop)]
pub struct FunctionTypes<'a> {
    bytes: &'a [u8],
    unit: &'a Unit,
    names: &'a Names,
    facts: Vec<NodeFact>,
    nodes: Vec<Node>,
    taken: NodeSet,
    statics: NodeSet,
    untyped: CType,
}

impl<'a> Model for FunctionTypes<'a> {
    ghost use Rattle.std.specs.Prelude.{◌≡◌, map};
    ghost use Rattle.std.specs.Coded.{codes};
    ghost use Rattle.stk_ctype.specs.contracts.ctype.CType as ctype;
    ghost use Rattle.stk_ctype.specs.contracts.ctype.Signature as signature;
    ghost use Rattle.stk_tree.specs.contracts.expression.Expr as expr;
    ghost use Rattle.stk_tree.specs.contracts.expression.ExprForm as expr_form;
    ghost use Rattle.stk_tree.specs.contracts.declaration.Base as base;
    ghost use Rattle.stk_tree.specs.contracts.declaration.BaseForm as base_form;
    ghost use Rattle.stk_tree.specs.contracts.declaration.Member as member;
    ghost use Rattle.stk_tree.specs.contracts.declaration.Enumr as enumr;
    ghost use Rattle.stk_tree.specs.contracts.declaration.Declr as declr;
    ghost use Rattle.stk_tree.specs.contracts.declaration.Tail as tail;
    ghost use Rattle.stk_tree.specs.contracts.declaration.Dimension as dimension;
    ghost use Rattle.stk_tree.specs.contracts.declaration.Param as param;
    ghost use Rattle.stk_tree.specs.contracts.declaration.TypeName as type_name;
    ghost use Rattle.stk_tree.specs.contracts.declaration.Init as init;
    ghost use Rattle.stk_tree.specs.contracts.declaration.Item as item;
    ghost use Rattle.stk_tree.specs.contracts.declaration.Desig as desig;
    ghost use Rattle.stk_tree.specs.contracts.statement.Stmt as stmt;
    ghost use Rattle.stk_tree.specs.contracts.statement.StmtForm as stmt_form;
    ghost use Rattle.stk_tree.specs.contracts.statement.Part as part;
    ghost use Rattle.stk_tree.specs.contracts.statement.Section as section;
    ghost use Rattle.stk_ctype.specs.Structs.{structs_of};
    ghost use Rattle.stk_ctype.specs.Types.{type_of, void_type};
    ghost use Rattle.stk_tree.specs.View.{view_unit};
    ghost use Rattle.stk_nodes.specs.Rows.{unit_row};
    ghost use Rattle.stk_type_rules.specs.Facts.{AreSoundFacts, fact_of};
    ghost use Rattle.stk_function_types.specs.Units.{TypedUnit, facts_in, unit_typed, unit_taken, unit_statics};

    ghost Value = { TypedUnit };

    ghost coded = { Prim.hlevel (codes, ctype.the_row.coded, signature.the_row.coded, expr.the_row.coded, expr_form.the_row.coded, base.the_row.coded, base_form.the_row.coded, member.the_row.coded, enumr.the_row.coded, declr.the_row.coded, tail.the_row.coded, dimension.the_row.coded, param.the_row.coded, type_name.the_row.coded, init.the_row.coded, item.the_row.coded, desig.the_row.coded, stmt.the_row.coded, stmt_form.the_row.coded, part.the_row.coded, section.the_row.coded) };

    ghost view = { λ t. record { bytes = t.bytes.now; unit = t.unit.now; entries = t.names.now } };

    ghost invariant = { λ t. (map fact_of t.facts.items ≡ facts_in (unit_typed t.bytes.now t.names.now (view_unit t.unit.now))) × AreSoundFacts (structs_of t.names.now) (map fact_of t.facts.items) × (t.nodes.items ≡ unit_row (view_unit t.unit.now)) × (t.taken ≡ unit_taken t.bytes.now (view_unit t.unit.now)) × (t.statics ≡ unit_statics (view_unit t.unit.now)) × (type_of t.untyped ≡ void_type) };
}

// The declarators whose names are operands of `&`.
fn taken_of(alloc: Global, bytes: &[u8], unit: &Unit) -> Result<NodeSet, NoMemory>
    ensures { IfOk result (λ set. set ≡ unit_taken bytes.now (view_unit unit.now)) }
{
    match unit {
        Unit::Empty(_) | Unit::Declares(_, _) => NodeSet::of(alloc, Vec::new(alloc)),
        Unit::Defines(_, f) => {
            let list = taken_in(alloc, bytes, f)?;
            NodeSet::of(alloc, list)
        }
    }
}

// The declarators of `static` objects.
fn statics_of(alloc: Global, unit: &Unit) -> Result<NodeSet, NoMemory>
    ensures { IfOk result (λ set. set ≡ unit_statics (view_unit unit.now)) }
{
    match unit {
        Unit::Empty(_) | Unit::Declares(_, _) => NodeSet::of(alloc, Vec::new(alloc)),
        Unit::Defines(_, f) => {
            let list = statics_in(alloc, f)?;
            NodeSet::of(alloc, list)
        }
    }
}

impl<'a> FunctionTypes<'a> {
    /// What is known of a function definition, given the facts of its nodes in the order of their numbers: they are
    /// those that typing gives, and their types are sound under the names.
    pub fn new(
        alloc: Global,
        bytes: &'a [u8],
        unit: &'a Unit,
        names: &'a Names,
        facts: Vec<NodeFact>,
    ) -> Result<FunctionTypes<'a>, NoMemory>
        requires known { map fact_of facts.items ≡ facts_in (unit_typed bytes.now names.now (view_unit unit.now)) }
        requires sound { AreSoundFacts (structs_of names.now) (map fact_of facts.items) }
        ensures { IfOk result (λ t. t ≡ record { bytes = bytes.now; unit = unit.now; entries = names.now }) }
    {
        let taken = taken_of(alloc, bytes, unit)?;
        let statics = statics_of(alloc, unit)?;
        let nodes = unit_nodes(alloc, unit)?;
        Ok(FunctionTypes {
            bytes,
            unit,
            names,
            facts,
            nodes,
            taken,
            statics,
            untyped: CType::Void,
        })
    }

    /// The input.
    pub fn bytes(&self) -> &'a [u8]
        ensures { result.now ≡ self.now.bytes }
    {
        self.bytes
    }

    /// The unit.
    pub fn unit(&self) -> &'a Unit
        ensures { result.now ≡ self.now.unit }
    {
        self.unit
    }

    /// The names of file scope.
    pub fn names(&self) -> &'a Names
        ensures { result.now ≡ self.now.entries }
    {
        self.names
    }

    /// The type of a node's value, or the type that a declarator declares; none where typing gives the node no type. It
    /// is sound under the names.
    pub fn value_type(&self, node: u32) -> Option<&CType>
        ensures is { option_map type_of (option_copied result) ≡ value_type self.now node }
        ensures sound { IfSome (option_copied result) (λ t. IsSound (structs_of self.now.entries) (type_of t)) }
    {
        match self.facts.get(node as usize) {
            None => None,
            Some(fact) => match fact.role {
                TypeRole::Value | TypeRole::Declares => Some(&fact.ty),
                TypeRole::Plain | TypeRole::Names => None,
            },
        }
    }

    /// The type of a node: that of its value, the one that a declarator declares, the one that a type name names;
    /// `void` for any other node. It is sound under the names.
    pub fn type_at(&self, node: u32) -> &CType
        ensures is { type_of result.now ≡ (typing_in self.now).type_at node }
        ensures sound { IsSound (structs_of self.now.entries) (type_of result.now) }
    {
        match self.facts.get(node as usize) {
            None => &self.untyped,
            Some(fact) => &fact.ty,
        }
    }

    /// The declarator of the parameter or local object that a name with a type means, by the number of its node; none
    /// for every other node.
    pub fn declared(&self, node: u32) -> Option<u32>
        ensures { result ≡ declared self.now node }
    {
        match self.facts.get(node as usize) {
            None => None,
            Some(fact) => fact.means,
        }
    }

    /// The number of a number, a character, a `sizeof` or an enumerator's name that has a type, or of the expression of
    /// a case; none for every other node.
    pub fn constant(&self, node: u32) -> Option<i128>
        ensures { result ≡ constant self.now node }
    {
        match self.facts.get(node as usize) {
            None => None,
            Some(fact) => fact.number,
        }
    }

    /// Whether the name of a declarator is an operand of `&` (C11 6.5.3.2), parentheses aside.
    pub fn is_taken(&self, node: u32) -> bool
        ensures { result ≡ (typing_in self.now).is_taken node }
    {
        self.taken.has(node)
    }

    /// Whether a node is the declarator of a register: of a scalar parameter or a scalar automatic object whose name is
    /// no operand of `&` (C11 6.5.3.2), parentheses aside.
    pub fn is_register(&self, node: u32) -> bool
        ensures { result ≡ is_register self.now node }
    {
        match self.facts.get(node as usize) {
            None => false,
            Some(fact) => {
                matches!(fact.role, TypeRole::Declares)
                    && is_scalar(&fact.ty)
                    && !(self.taken.has(node) || self.statics.has(node))
            }
        }
    }

    /// Where a node stands in the input; nowhere, from 0 to 0, where there is no such node.
    pub fn node_span(&self, node: u32) -> Span
        ensures { result ≡ node_span self.now node }
    {
        match self.nodes.get(node as usize) {
            None => Span { from: 0, to: 0 },
            Some(found) => found.span,
        }
    }

    /// The size of a type in bytes, where it is a complete object type (C11 6.2.5p1).
    pub fn size_of(&self, ty: &CType) -> Option<u64>
        requires { IsSound (structs_of self.now.entries) (type_of ty.now) }
        ensures { result ≡ (typing_in self.now).size_of (type_of ty.now) }
    {
        self.names.size_of(ty)
    }

    /// How many bytes before a member its struct begins, for a type and the place of the member's name (C11 6.5.2.3); 0
    /// where the type has no such member.
    pub fn offset_of(&self, ty: &CType, name: Span) -> u64
        ensures { result ≡ (typing_in self.now).offset_of (type_of ty.now) name }
    {
        match self.names.member(ty, name.text(self.bytes)) {
            None => 0,
            Some((offset, _)) => offset,
        }
    }

    /// The signature of the function that a name of file scope means, where it means one (C11 6.5.2.2). It is sound
    /// under the names.
    pub fn signature_at(&self, name: Span) -> Option<&'a Signature>
        ensures is { option_map signature_of (option_copied result) ≡ (typing_in self.now).signature_at name }
        ensures sound { IfSome (option_copied result) (λ f. IsSoundSignature (structs_of self.now.entries) (signature_of f)) }
    {
        match self.names.find(name.text(self.bytes)) {
            Some(Symbol::Function(f)) => Some(f),
            Some(Symbol::TypeDef(_) | Symbol::Object(_) | Symbol::Enumerator(_)) | None => None,
        }
    }
}
