//! The operators of scripts, and how they are spelled.

ghost use Rattle.std.specs.Prelude.{◌≡◌};
ghost use Rattle.stk_scripts.specs.Syntax.{unary_name, binary_name, extend_name, test_name};

/// An operator on one term.
#[derive(Clone, Copy, Debug, PartialEq, Eq)]
pub enum UnaryOp {
    Not,
    Neg,
}

/// An operator on two terms of one width.
#[derive(Clone, Copy, Debug, PartialEq, Eq)]
pub enum BinaryOp {
    And,
    Or,
    Xor,
    Add,
    Sub,
    Mul,
    UDiv,
    URem,
    Shl,
    LShr,
    AShr,
}

/// An operator that puts bits in front of a term.
#[derive(Clone, Copy, Debug, PartialEq, Eq)]
pub enum ExtendOp {
    Zero,
    Sign,
}

/// A comparison of two terms of one width.
#[derive(Clone, Copy, Debug, PartialEq, Eq)]
pub enum TestOp {
    Equal,
    Below,
    SignedBelow,
}

/// How an operator on one term is spelled.
pub fn unary_name(op: UnaryOp) -> &'static [u8]
    ensures { result.now ≡ unary_name op }
{
    match op {
        UnaryOp::Not => b"bvnot",
        UnaryOp::Neg => b"bvneg",
    }
}

/// How an operator on two terms is spelled.
pub fn binary_name(op: BinaryOp) -> &'static [u8]
    ensures { result.now ≡ binary_name op }
{
    match op {
        BinaryOp::And => b"bvand",
        BinaryOp::Or => b"bvor",
        BinaryOp::Xor => b"bvxor",
        BinaryOp::Add => b"bvadd",
        BinaryOp::Sub => b"bvsub",
        BinaryOp::Mul => b"bvmul",
        BinaryOp::UDiv => b"bvudiv",
        BinaryOp::URem => b"bvurem",
        BinaryOp::Shl => b"bvshl",
        BinaryOp::LShr => b"bvlshr",
        BinaryOp::AShr => b"bvashr",
    }
}

/// How an operator that puts bits in front is spelled.
pub fn extend_name(op: ExtendOp) -> &'static [u8]
    ensures { result.now ≡ extend_name op }
{
    match op {
        ExtendOp::Zero => b"zero_extend",
        ExtendOp::Sign => b"sign_extend",
    }
}

/// How a comparison is spelled.
pub fn test_name(op: TestOp) -> &'static [u8]
    ensures { result.now ≡ test_name op }
{
    match op {
        TestOp::Equal => b"=",
        TestOp::Below => b"bvult",
        TestOp::SignedBelow => b"bvslt",
    }
}
