use stk_base::{Class, Span};

/// A token (C11 6.4): its class, and the stretch of the input that it takes, which is never empty.
#[derive(Clone, Copy, Debug, PartialEq, Eq)]
pub struct Token {
    pub class: Class,
    pub span: Span,
}
