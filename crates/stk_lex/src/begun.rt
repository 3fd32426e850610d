// A unit that has begun, read token by token.

ghost use Rattle.std.specs.Prelude.{◌≡◌, ◌≤◌, ◌<◌, ◌+◌, ◌^◌, ℕ, List, [], ◌∷◌};
ghost use Rattle.std.specs.Option.{option_map};
ghost use Rattle.stk_lex.specs.declared.token.Token.{Token};
ghost use Rattle.stk_lex.specs.Units.{ends_unit, is_begin, is_outer, body_of, is_braced};
ghost use Rattle.stk_lex.specs.Begun.{IsBegun};

use crate::Token;
use crate::spelled::{
    closes_brace, closes_parenthesis, depth_behind, is_semicolon, opens, opens_brace,
};

/// What is known of the tokens of a unit as far as they are read: where they begin and where the next one stands, the
/// depth, the body and the last bracket at depth 0, and the last token.
#[derive(Clone, Copy, Debug)]
pub struct Begun {
    pub from: u32,
    pub next: u32,
    pub depth: u32,
    pub body: Option<u32>,
    pub braced: bool,
    pub parenthesis: bool,
    pub last: u32,
}

impl Begun {
    /// A unit with no token yet.
    #[tactic(auto, unfolding(crate::specs::Units::depth_of, crate::specs::Units::body_of, crate::specs::Units::is_braced, crate::specs::Units::ends_with_parenthesis))]
    pub fn at(from: u32) -> Begun
        ensures begun { (bytes : List ℕ) → IsBegun bytes result [] }
        ensures from { result.from ≡ from }
    {
        Begun {
            from,
            next: from,
            depth: 0,
            body: None,
            braced: false,
            parenthesis: false,
            last: 0,
        }
    }

    /// Whether a token ends the unit.
    #[tactic(auto, unfolding(crate::specs::Units::ends_unit))]
    pub fn is_ended_by(self, bytes: &[u8], token: Token) -> bool
        ensures { (before : List Token) → IsBegun bytes.now self before → result ≡ ends_unit bytes.now token before }
    {
        is_semicolon(bytes, token) && self.depth == 0
            || closes_brace(bytes, token) && self.depth == 1 && self.braced
    }

    /// Whether the unit has no token yet.
    pub fn is_empty(self) -> bool
        ensures { (bytes : List ℕ) (before : List Token) → IsBegun bytes self before → result ≡ is_begin before }
    {
        self.next == self.from
    }

    /// Whether a token is a bracket that brings the depth from 0 to 1.
    fn is_outer(self, bytes: &[u8], token: Token) -> bool
        ensures { (before : List Token) → IsBegun bytes.now self before → result ≡ is_outer bytes.now token before }
    {
        opens(bytes, token) && self.depth == 0
    }

    /// Where the body begins, with one more token.
    #[tactic(auto, unfolding(crate::specs::Units::body_of))]
    fn body_with(self, bytes: &[u8], token: Token) -> Option<u32>
        ensures { (before : List Token) → IsBegun bytes.now self before → result ≡ option_map (λ n. self.from + n) (body_of bytes.now (token ∷ before)) }
    {
        if !self.is_outer(bytes, token) {
            self.body
        } else if opens_brace(bytes, token) && self.parenthesis {
            Some(self.next)
        } else {
            None
        }
    }

    /// Whether the last bracket at depth 0 is a `{` that follows a `)` or begins the unit, with one more token.
    #[tactic(auto, unfolding(crate::specs::Units::is_braced))]
    fn braced_with(self, bytes: &[u8], token: Token) -> bool
        ensures { (before : List Token) → IsBegun bytes.now self before → result ≡ is_braced bytes.now (token ∷ before) }
    {
        if self.is_outer(bytes, token) {
            opens_brace(bytes, token) && (self.is_empty() || self.parenthesis)
        } else {
            self.braced
        }
    }

    /// The unit with one more token.
    #[tactic(auto, unfolding(crate::specs::Units::depth_of, crate::specs::Units::ends_with_parenthesis))]
    pub fn with(self, bytes: &[u8], token: Token) -> Begun
        requires room { self.next + 1 < 2 ^ 32 }
        requires deep { self.depth + 1 < 2 ^ 32 }
        ensures begun { (before : List Token) → IsBegun bytes.now self before → IsBegun bytes.now result (token ∷ before) }
        ensures from { result.from ≡ self.from }
    {
        Begun {
            from: self.from,
            next: self.next + 1,
            depth: depth_behind(bytes, self.depth, token),
            body: self.body_with(bytes, token),
            braced: self.braced_with(bytes, token),
            parenthesis: closes_parenthesis(bytes, token),
            last: token.span.from,
        }
    }
}
