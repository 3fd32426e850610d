//! What the runs of a function rest on.

ghost use Rattle.std.specs.Prelude.{◌≡◌, ◌≤◌, length, map};
ghost use Rattle.stk_tree.specs.View.{view_expression, view_expression_form};
ghost use Rattle.stk_meaning.specs.Places.{mentioned_in, object_named, target_at, target_of, form_target, kept_at, position_behind, member_target};
ghost use Rattle.stk_function_env.specs.Infos.{info_in};
ghost use Rattle.stk_function_env.specs.Settings.{setting_in};
ghost use Rattle.stk_operators.specs.Targets.{target_shown};

use crate::{KeyInfo, Mention};
use std::marker::Model;
use stk_address_taken::NodeSet;
use stk_base::Span;
use stk_ctype::Index;
use stk_function_types::FunctionTypes;
use stk_numbers::Kinds;
use stk_operators::Target;
use stk_tree::{Expr, ExprForm};

/// What the runs of a function rest on: the types of its nodes, the kinds of conditions that are taken out, the
/// declarators of its registers, the objects of file scope that it mentions, and its kept objects, each by the node of
/// its address.
///
/// Its calls take no memory, and constant time, but for a name that is looked up, which takes logarithmic time.
#[derive(Drop)]
pub struct Setting<'a> {
    pub(crate) types: &'a FunctionTypes<'a>,
    pub(crate) without: Kinds,
    pub(crate) registers: Vec<u32>,
    pub(crate) marks: NodeSet,
    pub(crate) mentions: Vec<Mention>,
    pub(crate) index: Index<u32>,
    pub(crate) kept: Vec<u32>,
    pub(crate) keys: Vec<KeyInfo>,
}

impl<'a> Model for Setting<'a> {
    ghost use Rattle.std.specs.Prelude.{◌≡◌, ◌≤◌, map, length};
    ghost use Rattle.std.specs.Coded.{codes};
    ghost use Rattle.stk_ctype.specs.Index.{IsIndexOf};
    ghost use Rattle.stk_ctype.specs.contracts.ctype.CType as ctype;
    ghost use Rattle.stk_ctype.specs.contracts.ctype.Signature as signature;
    ghost use Rattle.stk_tree.specs.contracts.expression.Expr as expr;
    ghost use Rattle.stk_tree.specs.contracts.expression.ExprForm as expr_form;
    ghost use Rattle.stk_tree.specs.contracts.declaration.Base as base;
    ghost use Rattle.stk_tree.specs.contracts.declaration.BaseForm as base_form;
    ghost use Rattle.stk_tree.specs.contracts.declaration.Member as member;
    ghost use Rattle.stk_tree.specs.contracts.declaration.Enumr as enumr;
    ghost use Rattle.stk_tree.specs.contracts.declaration.Declr as declr;
    ghost use Rattle.stk_tree.specs.contracts.declaration.Tail as tail;
    ghost use Rattle.stk_tree.specs.contracts.declaration.Dimension as dimension;
    ghost use Rattle.stk_tree.specs.contracts.declaration.Param as param;
    ghost use Rattle.stk_tree.specs.contracts.declaration.TypeName as type_name;
    ghost use Rattle.stk_tree.specs.contracts.declaration.Init as init;
    ghost use Rattle.stk_tree.specs.contracts.declaration.Item as item;
    ghost use Rattle.stk_tree.specs.contracts.declaration.Desig as desig;
    ghost use Rattle.stk_tree.specs.contracts.statement.Stmt as stmt;
    ghost use Rattle.stk_tree.specs.contracts.statement.StmtForm as stmt_form;
    ghost use Rattle.stk_tree.specs.contracts.statement.Part as part;
    ghost use Rattle.stk_tree.specs.contracts.statement.Section as section;
    ghost use Rattle.stk_function_env.specs.Infos.{info_in};
    ghost use Rattle.stk_function_env.specs.Settings.{FunctionPlaces, mention_in, words_behind};

    ghost Value = { FunctionPlaces };

    ghost coded = { Prim.hlevel (codes, ctype.the_row.coded, signature.the_row.coded, expr.the_row.coded, expr_form.the_row.coded, base.the_row.coded, base_form.the_row.coded, member.the_row.coded, enumr.the_row.coded, declr.the_row.coded, tail.the_row.coded, dimension.the_row.coded, param.the_row.coded, type_name.the_row.coded, init.the_row.coded, item.the_row.coded, desig.the_row.coded, stmt.the_row.coded, stmt_form.the_row.coded, part.the_row.coded, section.the_row.coded) };

    ghost view = { λ s. record { types = s.types.now; without = s.without; registers = s.registers.items; mentions = map (mention_in s.types.now.bytes) s.mentions.items; kept = s.kept.items; keys = map info_in s.keys.items } };

    ghost invariant = { λ s. (s.marks ≡ s.registers.items) × IsIndexOf s.index (words_behind (map (mention_in s.types.now.bytes) s.mentions.items)) × (length s.kept.items ≤ 32) };
}

// The position of a number among some.
fn position_of(k: u32, list: &[u32]) -> Option<u32>
    requires { length list.now ≤ 32 }
    ensures { result ≡ position_behind 0 k list.now }
{
    let mut i = 0;
    for j in list {
        if k == *j {
            return Some(i);
        }
        i += 1;
    }
    None
}

// A member of a place: no register and no kept object has members.
fn member_of(place: Target) -> Target
    ensures { target_shown result ≡ member_target (target_shown place) }
{
    match place {
        Target::Object(k) => Target::Object(k),
        Target::Register(_) | Target::Kept(_) | Target::Unnamed => Target::Unnamed,
    }
}

impl<'a> Setting<'a> {
    /// The types of the function.
    pub fn types(&self) -> &'a FunctionTypes<'a>
        ensures { result.now ≡ self.now.types }
    {
        self.types
    }

    /// The kinds of conditions that are taken out.
    pub fn without(&self) -> Kinds
        ensures { result ≡ (setting_in self.now).without }
    {
        self.without
    }

    /// The declarators of the registers by the numbers of their nodes, parameters first, in order.
    pub fn registers(&self) -> &[u32]
        ensures { result.now ≡ (setting_in self.now).registers }
    {
        self.registers.as_slice()
    }

    /// The kept objects, each by the node of its address, in order; there are at most 32.
    pub fn kept(&self) -> &[u32]
        ensures is { result.now ≡ (setting_in self.now).kept }
        ensures few { length result.now ≤ 32 }
    {
        self.kept.as_slice()
    }

    /// The keys of the function, in order: what a path run takes from an input map.
    pub fn keys(&self) -> &[KeyInfo]
        ensures { map info_in result.now ≡ self.now.keys }
    {
        self.keys.as_slice()
    }

    /// The node at which a name of file scope is first mentioned, where an evaluated part of the function mentions it.
    pub fn mentioned(&self, name: &[u8]) -> Option<u32>
        ensures { result ≡ mentioned_in name.now (setting_in self.now).mentions }
    {
        self.index.get(name)
    }

    /// The object or register that the name at a node means: the declarator of a parameter or a local object, or else
    /// the node of the first mention.
    pub fn object_named(&self, node: u32, name: Span) -> u32
        ensures { result ≡ object_named (setting_in self.now) node name }
    {
        match self.types.declared(node) {
            Some(declarator) => declarator,
            None => match self.mentioned(name.text(self.types.bytes())) {
                Some(first) => first,
                None => node,
            },
        }
    }

    /// What a declarator or a first mention stands for.
    pub fn target_at(&self, node: u32) -> Target
        ensures { target_shown result ≡ target_at (setting_in self.now) node }
    {
        if self.marks.has(node) {
            return Target::Register(node);
        }
        match position_of(node, self.kept.as_slice()) {
            Some(position) => Target::Kept(position),
            None => Target::Object(node),
        }
    }

    /// What an expression is as a place by name (C11 6.5.1, 6.5.2.3), parentheses aside.
    #[cycle(target_of)]
    pub fn target_of(&self, e: &Expr) -> Target
        ensures { target_shown result ≡ target_of (setting_in self.now) (view_expression e.now) }
    {
        self.form_target(e.node.number, &e.form)
    }

    /// What an expression of this form at a node is as a place by name.
    #[cycle(target_of)]
    pub fn form_target(&self, node: u32, f: &ExprForm) -> Target
        ensures { target_shown result ≡ form_target (setting_in self.now) node (view_expression_form f.now) }
    {
        match f {
            ExprForm::Name(at) => self.target_at(self.object_named(node, *at)),
            ExprForm::Paren(e) => self.target_of(e.get()),
            ExprForm::Dot(e, _) => member_of(self.target_of(e.get())),
            ExprForm::Number(_)
            | ExprForm::Character(_)
            | ExprForm::Text(_)
            | ExprForm::Index(_, _)
            | ExprForm::Call(_, _)
            | ExprForm::Arrow(_, _)
            | ExprForm::Step(_, _)
            | ExprForm::Unary(_, _)
            | ExprForm::SizeExpr(_)
            | ExprForm::SizeName(_)
            | ExprForm::Cast(_, _)
            | ExprForm::Binary(_, _, _)
            | ExprForm::Choice(_, _, _)
            | ExprForm::Assign(_, _, _) => Target::Unnamed,
        }
    }

    /// The position of the kept object that a name means, parentheses aside.
    pub fn kept_at(&self, e: &Expr) -> Option<u32>
        ensures { result ≡ kept_at (setting_in self.now) (view_expression e.now) }
    {
        match self.target_of(e) {
            Target::Kept(position) => Some(position),
            Target::Register(_) | Target::Object(_) | Target::Unnamed => None,
        }
    }
}
