//! What is known of a node.

ghost use Rattle.std.specs.Prelude.{◌≡◌};
ghost use Rattle.stk_ctype.specs.Types.{type_of};
ghost use Rattle.stk_type_rules.specs.Facts.{fact_of, plain, value, place, constant, literal, measured, names_type, declares};

use stk_ctype::CType;

/// What a node has to do with its type: it has none, or a value of it, or it declares something of it, or it names it.
#[derive(Clone, Copy, Debug, PartialEq, Eq)]
pub enum TypeRole {
    Plain,
    Value,
    Declares,
    Names,
}

/// Whether an expression is a constant one (C11 6.6): it isn't; it is, and a part of it that is evaluated violates a
/// condition; it is, and has this number.
#[derive(Clone, Copy, Debug, PartialEq, Eq)]
pub enum Constancy {
    Varies,
    Violates,
    Number(i128),
}

/// What is known of a node: its role and type; whether it is an lvalue (C11 6.3.2.1); for a name, the number of the
/// declarator of the parameter or local object that it means; whether it is a constant expression; the number that it
/// has by itself, as a constant, an enumerator's name or a `sizeof`; and whether it is a null pointer constant.
#[derive(Drop)]
pub struct NodeFact {
    pub role: TypeRole,
    pub ty: CType,
    pub lvalue: bool,
    pub means: Option<u32>,
    pub constancy: Constancy,
    pub number: Option<i128>,
    pub is_null: bool,
}

impl NodeFact {
    /// A node without a type.
    pub fn plain() -> NodeFact
        ensures { fact_of result ≡ plain }
    {
        NodeFact {
            role: TypeRole::Plain,
            ty: CType::Void,
            lvalue: false,
            means: None,
            constancy: Constancy::Varies,
            number: None,
            is_null: false,
        }
    }

    /// A value of a type.
    pub fn value(ty: CType) -> NodeFact
        ensures { fact_of result ≡ value (type_of ty) }
    {
        NodeFact {
            role: TypeRole::Value,
            ty,
            ..NodeFact::plain()
        }
    }

    /// An lvalue of a type.
    pub fn place(ty: CType) -> NodeFact
        ensures { fact_of result ≡ place (type_of ty) }
    {
        NodeFact {
            role: TypeRole::Value,
            ty,
            lvalue: true,
            ..NodeFact::plain()
        }
    }

    /// A value of a type, which may be that of a constant expression.
    pub fn constant(ty: CType, constancy: Constancy) -> NodeFact
        ensures { fact_of result ≡ constant (type_of ty) constancy }
    {
        NodeFact {
            role: TypeRole::Value,
            ty,
            constancy,
            ..NodeFact::plain()
        }
    }

    /// A constant or an enumerator's name, with its number; or `sizeof` of a type.
    pub fn literal(ty: CType, number: i128) -> NodeFact
        ensures { fact_of result ≡ literal (type_of ty) number }
    {
        NodeFact {
            role: TypeRole::Value,
            ty,
            constancy: Constancy::Number(number),
            number: Some(number),
            ..NodeFact::plain()
        }
    }

    /// `sizeof` of an expression, with its number; it is no constant expression in this profile.
    pub fn measured(ty: CType, number: i128) -> NodeFact
        ensures { fact_of result ≡ measured (type_of ty) number }
    {
        NodeFact {
            role: TypeRole::Value,
            ty,
            number: Some(number),
            ..NodeFact::plain()
        }
    }

    /// A type name.
    pub fn names_type(ty: CType) -> NodeFact
        ensures { fact_of result ≡ names_type (type_of ty) }
    {
        NodeFact {
            role: TypeRole::Names,
            ty,
            ..NodeFact::plain()
        }
    }

    /// A declarator of a type.
    pub fn declares(ty: CType) -> NodeFact
        ensures { fact_of result ≡ declares (type_of ty) }
    {
        NodeFact {
            role: TypeRole::Declares,
            ty,
            ..NodeFact::plain()
        }
    }
}
