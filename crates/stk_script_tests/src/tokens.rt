//! Texts and their tokens.

use std::alloc::Global;
use std::test::Fail;
use stk_base::Span;
use stk_scripts::{
    BinaryOp, ExtendOp, TestOp, Token, UnaryOp, binary_name, extend_name, lex, test_name,
    unary_name,
};

/// A text, and its tokens; `None` where it isn't made of tokens.
struct Case {
    text: &'static [u8],
    tokens: Option<&'static [Token]>,
}

static CASES: [Case; 6] = [
    Case {
        text: b"",
        tokens: Some(&[]),
    },
    Case {
        text: b"(check-sat)\n",
        tokens: Some(&[
            Token::Opening,
            Token::Word(Span { from: 1, to: 10 }),
            Token::Closing,
        ]),
    },
    // a comment ends with its line, and a word before a comment
    Case {
        text: b"= ; (\r)k0;end",
        tokens: Some(&[
            Token::Word(Span { from: 0, to: 1 }),
            Token::Closing,
            Token::Word(Span { from: 7, to: 9 }),
        ]),
    },
    Case {
        text: b"(_ bv8 32)",
        tokens: Some(&[
            Token::Opening,
            Token::Word(Span { from: 1, to: 2 }),
            Token::Word(Span { from: 3, to: 6 }),
            Token::Word(Span { from: 7, to: 9 }),
            Token::Closing,
        ]),
    },
    // a quoted word and a word of other bytes are no tokens here
    Case {
        text: b"(set-info :status sat)",
        tokens: None,
    },
    Case {
        text: b"|a|",
        tokens: None,
    },
];

/// Whether these are the tokens of a text.
fn has_tokens(alloc: Global, case: &Case) -> Result<bool, Fail> {
    if case.text.len() > u32::MAX as usize {
        return Ok(false);
    }
    let found = lex(alloc, case.text)?;
    Ok(match (&found, case.tokens) {
        (None, None) => true,
        (Some(found), Some(wanted)) => found.as_slice() == wanted,
        _ => false,
    })
}

#[test]
fn texts_have_their_tokens(rt: HostRuntime) -> Result<(), Fail> {
    for case in &CASES {
        assert!(rt; has_tokens(rt.alloc(), case)?);
    }
    Ok(())
}

#[test]
fn operators_are_spelled(rt: HostRuntime) -> Result<(), Fail> {
    assert!(rt; unary_name(UnaryOp::Neg) == b"bvneg".as_slice());
    assert!(rt; binary_name(BinaryOp::AShr) == b"bvashr".as_slice());
    assert!(rt; extend_name(ExtendOp::Sign) == b"sign_extend".as_slice());
    assert!(rt; test_name(TestOp::SignedBelow) == b"bvslt".as_slice());
    Ok(())
}
