//! The levels of expressions, from the one that binds the weakest to the one that binds the strongest (C11 6.5).

/// `a, b` (C11 6.5.17).
pub const COMMA: usize = 1;
/// `a = b` and the compound assignments (C11 6.5.16).
pub const ASSIGNMENT: usize = 2;
/// `a ? b : c`, and so a constant expression (C11 6.5.15, 6.6).
pub const CONDITIONAL: usize = 3;
/// `a || b` (C11 6.5.14).
pub const LOGICAL_OR: usize = 4;
/// `a && b` (C11 6.5.13).
pub const LOGICAL_AND: usize = 5;
/// `a | b` (C11 6.5.12).
pub const OR: usize = 6;
/// `a ^ b` (C11 6.5.11).
pub const XOR: usize = 7;
/// `a & b` (C11 6.5.10).
pub const AND: usize = 8;
/// `a == b` and `a != b` (C11 6.5.9).
pub const EQUALITY: usize = 9;
/// `a < b` and its like (C11 6.5.8).
pub const RELATIONAL: usize = 10;
/// `a << b` and `a >> b` (C11 6.5.7).
pub const SHIFT: usize = 11;
/// `a + b` and `a - b` (C11 6.5.6).
pub const ADDITIVE: usize = 12;
/// `a * b`, `a / b` and `a % b` (C11 6.5.5).
pub const MULTIPLICATIVE: usize = 13;
/// `(type) a` (C11 6.5.4).
pub const CAST: usize = 14;
/// `-a` and its like, `++a`, `sizeof a` (C11 6.5.3).
pub const UNARY: usize = 15;
/// `a[b]`, `a(b)`, `a.b`, `a->b`, `a++` (C11 6.5.2).
pub const POSTFIX: usize = 16;
/// Names, constants, string literals, `(a)` (C11 6.5.1).
pub const PRIMARY: usize = 17;
