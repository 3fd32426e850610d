// Tokens by their spelling, and the depth of brackets.

ghost use Rattle.std.specs.Prelude.{◌≡◌, ◌≤◌, ◌<◌, ◌+◌, ◌^◌, map, List, ℕ};
ghost use Rattle.std.specs.List.{list_any};
ghost use Rattle.stk_base.specs.Text.{same_text};
ghost use Rattle.stk_lex.specs.Spelled.{is_one_of, opens, closes, opens_parenthesis, closes_parenthesis, opens_brace, closes_brace, is_semicolon, depth_behind, is_dropped_word, is_attribute_word, is_assembly_word, is_changing_word, is_no_return_word, is_noreturn_specifier};

use crate::Token;

const OPENING_MARKS: [&[u8]; 3] = [b"(", b"[", b"{"];

const CLOSING_MARKS: [&[u8]; 3] = [b")", b"]", b"}"];

/// Qualifiers, storage classes and function specifiers that don't matter here, and how compilers spell them.
const DROPPED_WORDS: [&[u8]; 13] = [
    b"auto",
    b"const",
    b"inline",
    b"register",
    b"restrict",
    b"_Noreturn",
    b"__const",
    b"__const__",
    b"__extension__",
    b"__inline",
    b"__inline__",
    b"__restrict",
    b"__restrict__",
];

const ATTRIBUTE_WORDS: [&[u8]; 2] = [b"__attribute__", b"__attribute"];

const ASSEMBLY_WORDS: [&[u8]; 3] = [b"asm", b"__asm", b"__asm__"];

/// The attributes that change what is declared, or what is done with it.
const CHANGING_WORDS: [&[u8]; 12] = [
    b"packed",
    b"aligned",
    b"mode",
    b"vector_size",
    b"cleanup",
    b"transparent_union",
    b"__packed__",
    b"__aligned__",
    b"__mode__",
    b"__vector_size__",
    b"__cleanup__",
    b"__transparent_union__",
];

const NO_RETURN_WORDS: [&[u8]; 2] = [b"noreturn", b"__noreturn__"];

fn is_one_of(words: &[&[u8]], text: &[u8]) -> bool
    ensures { result ≡ list_any (λ word. same_text word.now text.now) words.now }
{
    words.iter().any(|word| *word == text)
}

#[tactic(auto, unfolding(crate::specs::Spelled::opens))]
pub(crate) fn opens(bytes: &[u8], token: Token) -> bool
    ensures { result ≡ opens bytes.now token }
{
    is_one_of(&OPENING_MARKS, token.span.text(bytes))
}

#[tactic(auto, unfolding(crate::specs::Spelled::closes))]
pub(crate) fn closes(bytes: &[u8], token: Token) -> bool
    ensures { result ≡ closes bytes.now token }
{
    is_one_of(&CLOSING_MARKS, token.span.text(bytes))
}

#[tactic(auto, unfolding(crate::specs::Spelled::opens_parenthesis))]
pub(crate) fn opens_parenthesis(bytes: &[u8], token: Token) -> bool
    ensures { result ≡ opens_parenthesis bytes.now token }
{
    b"(".as_slice() == token.span.text(bytes)
}

#[tactic(auto, unfolding(crate::specs::Spelled::closes_parenthesis))]
pub(crate) fn closes_parenthesis(bytes: &[u8], token: Token) -> bool
    ensures { result ≡ closes_parenthesis bytes.now token }
{
    b")".as_slice() == token.span.text(bytes)
}

#[tactic(auto, unfolding(crate::specs::Spelled::opens_brace))]
pub(crate) fn opens_brace(bytes: &[u8], token: Token) -> bool
    ensures { result ≡ opens_brace bytes.now token }
{
    b"{".as_slice() == token.span.text(bytes)
}

#[tactic(auto, unfolding(crate::specs::Spelled::closes_brace))]
pub(crate) fn closes_brace(bytes: &[u8], token: Token) -> bool
    ensures { result ≡ closes_brace bytes.now token }
{
    b"}".as_slice() == token.span.text(bytes)
}

#[tactic(auto, unfolding(crate::specs::Spelled::is_semicolon))]
pub(crate) fn is_semicolon(bytes: &[u8], token: Token) -> bool
    ensures { result ≡ is_semicolon bytes.now token }
{
    b";".as_slice() == token.span.text(bytes)
}

/// The depth behind a token, from the depth before it.
#[tactic(auto, unfolding(crate::specs::Spelled::depth_behind))]
pub(crate) fn depth_behind(bytes: &[u8], depth: u32, token: Token) -> u32
    requires { depth + 1 < 2 ^ 32 }
    ensures value { result ≡ depth_behind bytes.now depth token }
    ensures bound { result ≤ depth + 1 }
{
    if opens(bytes, token) {
        depth + 1
    } else if closes(bytes, token) {
        depth.saturating_sub(1)
    } else {
        depth
    }
}

#[tactic(auto, unfolding(crate::specs::Spelled::is_dropped_word))]
pub(crate) fn is_dropped_word(bytes: &[u8], token: Token) -> bool
    ensures { result ≡ is_dropped_word bytes.now token }
{
    is_one_of(&DROPPED_WORDS, token.span.text(bytes))
}

#[tactic(auto, unfolding(crate::specs::Spelled::is_attribute_word))]
pub(crate) fn is_attribute_word(bytes: &[u8], token: Token) -> bool
    ensures { result ≡ is_attribute_word bytes.now token }
{
    is_one_of(&ATTRIBUTE_WORDS, token.span.text(bytes))
}

#[tactic(auto, unfolding(crate::specs::Spelled::is_assembly_word))]
pub(crate) fn is_assembly_word(bytes: &[u8], token: Token) -> bool
    ensures { result ≡ is_assembly_word bytes.now token }
{
    is_one_of(&ASSEMBLY_WORDS, token.span.text(bytes))
}

#[tactic(auto, unfolding(crate::specs::Spelled::is_changing_word))]
pub(crate) fn is_changing_word(bytes: &[u8], token: Token) -> bool
    ensures { result ≡ is_changing_word bytes.now token }
{
    is_one_of(&CHANGING_WORDS, token.span.text(bytes))
}

#[tactic(auto, unfolding(crate::specs::Spelled::is_no_return_word))]
pub(crate) fn is_no_return_word(bytes: &[u8], token: Token) -> bool
    ensures { result ≡ is_no_return_word bytes.now token }
{
    is_one_of(&NO_RETURN_WORDS, token.span.text(bytes))
}

#[tactic(auto, unfolding(crate::specs::Spelled::is_noreturn_specifier))]
pub(crate) fn is_noreturn_specifier(bytes: &[u8], token: Token) -> bool
    ensures { result ≡ is_noreturn_specifier bytes.now token }
{
    b"_Noreturn".as_slice() == token.span.text(bytes)
}
