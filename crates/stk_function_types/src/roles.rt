//! How expressions are evaluated.

ghost use Rattle.std.specs.Prelude.{◌≡◌};
ghost use Rattle.stk_ctype.specs.Types.{type_of};
ghost use Rattle.stk_meaning.specs.Typings.{is_array};
ghost use Rattle.stk_meaning.specs.Visits.{reading, accessing, taking, as_arm, as_test, accesses, inner_role, inside, indexed_role, unary_role, left_role, right_role, assigned_role};
ghost use Rattle.stk_function_types.specs.Visits.{use_in, role_in};

use stk_ctype::CType;
use stk_tree::{AssignOp, BinaryOp, UnaryOp};

/// How a place is used: its number is read; it is accessed, as a member of it is or as it is written; its address is
/// taken.
#[derive(Clone, Copy, Debug, PartialEq, Eq)]
pub enum Use {
    Read,
    Accessed,
    Taken,
}

/// How an expression is evaluated: its use, whether it is entered as a branch, and whether it is a controlling
/// expression.
#[derive(Clone, Copy, Debug, PartialEq, Eq)]
pub struct Role {
    pub use_of: Use,
    pub is_arm: bool,
    pub is_test: bool,
}

impl Role {
    /// An operand whose number is read.
    pub fn reading() -> Role
        ensures { role_in result ≡ reading }
    {
        Role {
            use_of: Use::Read,
            is_arm: false,
            is_test: false,
        }
    }

    /// A place that is accessed and not read.
    pub fn accessing() -> Role
        ensures { role_in result ≡ accessing }
    {
        Role {
            use_of: Use::Accessed,
            is_arm: false,
            is_test: false,
        }
    }

    /// The operand of `&`.
    pub fn taking() -> Role
        ensures { role_in result ≡ taking }
    {
        Role {
            use_of: Use::Taken,
            is_arm: false,
            is_test: false,
        }
    }

    /// A branch.
    pub fn as_arm() -> Role
        ensures { role_in result ≡ as_arm }
    {
        Role {
            use_of: Use::Read,
            is_arm: true,
            is_test: false,
        }
    }

    /// A controlling expression.
    pub fn as_test() -> Role
        ensures { role_in result ≡ as_test }
    {
        Role {
            use_of: Use::Read,
            is_arm: false,
            is_test: true,
        }
    }
}

// Whether a type is an array.
fn is_array(ty: &CType) -> bool
    ensures { result ≡ is_array (type_of ty.now) }
{
    match ty {
        CType::Array(_, _) => true,
        CType::Void | CType::Int(_) | CType::Pointer(_) | CType::Struct(_) | CType::Function(_) =>
            false,
    }
}

/// Whether a use of a place of this type accesses it: to read an array is to take the address of its first element (C11
/// 6.3.2.1p3).
pub fn accesses(ty: &CType, used: Use) -> bool
    ensures { result ≡ accesses (type_of ty.now) (use_in used) }
{
    match used {
        Use::Read => !is_array(ty),
        Use::Accessed => true,
        Use::Taken => false,
    }
}

// The place that a member, or an element of an array, stands in.
pub(crate) fn inner_role(ty: &CType, used: Use) -> Role
    ensures { role_in result ≡ inner_role (type_of ty.now) (use_in used) }
{
    if accesses(ty, used) {
        Role::accessing()
    } else {
        Role::taking()
    }
}

// What parentheses hold is used as they are, and is no branch of its own.
pub(crate) fn inside(role: Role) -> Role
    ensures { role_in result ≡ inside (role_in role) }
{
    Role {
        use_of: role.use_of,
        is_arm: false,
        is_test: role.is_test,
    }
}

// What stands before `[e]`: the array that the element stands in, or a pointer that is read.
pub(crate) fn indexed_role(whole: &CType, ty: &CType, used: Use) -> Role
    ensures { role_in result ≡ indexed_role (type_of whole.now) (type_of ty.now) (use_in used) }
{
    if is_array(ty) {
        inner_role(whole, used)
    } else {
        Role::reading()
    }
}

// The operand of a unary operator.
pub(crate) fn unary_role(op: UnaryOp) -> Role
    ensures { role_in result ≡ unary_role op }
{
    match op {
        UnaryOp::Address => Role::taking(),
        UnaryOp::Deref | UnaryOp::Plus | UnaryOp::Minus | UnaryOp::Flip | UnaryOp::Not => {
            Role::reading()
        }
    }
}

// The left operand of a binary operator.
pub(crate) fn left_role(op: BinaryOp) -> Role
    ensures { role_in result ≡ left_role op }
{
    match op {
        BinaryOp::OrElse | BinaryOp::AndAlso => Role::as_test(),
        BinaryOp::Comma
        | BinaryOp::Or
        | BinaryOp::Xor
        | BinaryOp::And
        | BinaryOp::Eq
        | BinaryOp::Ne
        | BinaryOp::Lt
        | BinaryOp::Gt
        | BinaryOp::Le
        | BinaryOp::Ge
        | BinaryOp::Left
        | BinaryOp::Right
        | BinaryOp::Add
        | BinaryOp::Sub
        | BinaryOp::Mul
        | BinaryOp::Div
        | BinaryOp::Rem => Role::reading(),
    }
}

// The right operand of a binary operator.
pub(crate) fn right_role(op: BinaryOp) -> Role
    ensures { role_in result ≡ right_role op }
{
    match op {
        BinaryOp::OrElse | BinaryOp::AndAlso => Role::as_arm(),
        BinaryOp::Comma
        | BinaryOp::Or
        | BinaryOp::Xor
        | BinaryOp::And
        | BinaryOp::Eq
        | BinaryOp::Ne
        | BinaryOp::Lt
        | BinaryOp::Gt
        | BinaryOp::Le
        | BinaryOp::Ge
        | BinaryOp::Left
        | BinaryOp::Right
        | BinaryOp::Add
        | BinaryOp::Sub
        | BinaryOp::Mul
        | BinaryOp::Div
        | BinaryOp::Rem => Role::reading(),
    }
}

// The left operand of an assignment: a compound one reads it too.
pub(crate) fn assigned_role(op: AssignOp) -> Role
    ensures { role_in result ≡ assigned_role op }
{
    match op {
        AssignOp::Plain => Role::accessing(),
        AssignOp::Mul
        | AssignOp::Div
        | AssignOp::Rem
        | AssignOp::Add
        | AssignOp::Sub
        | AssignOp::Left
        | AssignOp::Right
        | AssignOp::And
        | AssignOp::Xor
        | AssignOp::Or => Role::reading(),
    }
}
