ghost use Rattle.std.specs.Prelude.{◌≡◌, ◌≤◌, IfOk, List, length, ℕ};
ghost use Rattle.std.specs.Result.{IsErrOf};
ghost use Rattle.stk_base.specs.Limits.{most_bytes};
ghost use Rattle.stk_tree.specs.Nesting.{most_nesting};
ghost use Rattle.stk_tree.specs.declared.fixed.Lexeme.{Lexeme};
ghost use Rattle.stk_tree.specs.Layout.{laid_declaration, unnumbered_at};
ghost use Rattle.stk_tree.specs.Syntax.{DeclarationTree};
ghost use Rattle.stk_tree.specs.View.{view_declaration};
ghost use Rattle.stk_grammar.specs.Lexemes.{lexemes_of, spans_of};
ghost use Rattle.stk_tree.specs.Unlaid.{unlaid_declaration};
ghost use Rattle.stk_grammar.specs.Declarations.{DeclarationLeads, FrontLeads, IsDeclaration, IsFront};
ghost use Rattle.stk_ctype.specs.Named.{named};

use crate::declarations::{declaration, function_front};
use std::alloc::Global;
use stk_ctype::Names;
use stk_expr::Parse;
use stk_grammar::{lexemes_of, spans_of};
use stk_lex::Token;
use stk_nodes::span_declaration;
use stk_tree::{Declaration, Lexeme, MOST_NESTING};

/// A declaration at the front of some tokens, and the tokens behind it.
#[derive(Drop)]
pub struct LeadingDeclaration<'a> {
    pub tree: Declaration,
    pub rest: &'a [Lexeme],
}

/// Reads the declaration that these tokens begin with, through its `;` (C11 6.7): one at file scope where `file` says
/// so, and else one in a block or a `for`. This is the call for readers of what holds declarations; `room` is the
/// nesting that is left.
///
/// The tree is well placed, fits the names and is at most `room` high, as with `decl`. `NoTree` comes exactly where the
/// tokens begin with no such declaration. The records of its nodes aren't set.
pub fn declaration_within<'a>(
    alloc: Global,
    bytes: &[u8],
    names: &Names,
    file: bool,
    room: usize,
    lexemes: &'a [Lexeme],
) -> Result<LeadingDeclaration<'a>, Parse>
    requires { room ≤ most_nesting }
    ensures found { IfOk result (λ x. DeclarationLeads (named bytes.now names.now) file room lexemes.now (view_declaration x.tree) x.rest.now) }
    ensures unlaid { IfOk result (λ x. unlaid_declaration (view_declaration x.tree) ≡ view_declaration x.tree) }
    ensures none { IsErrOf result Parse.NoTree
        → (d : DeclarationTree) (rest : List Lexeme) → DeclarationLeads (named bytes.now names.now) file room lexemes.now d rest → ⊥ }
{
    let (tree, rest) = declaration(alloc, bytes, names, file, room, lexemes)?;
    Ok(LeadingDeclaration { tree, rest })
}

/// Reads what these tokens begin with before the body of a function, where the body's `{` follows (C11 6.9.1): storage
/// word, base and declarator, as a declaration with this one declarator. This is the call for readers of functions;
/// `room` is the nesting that is left.
///
/// The tree is well placed, fits the names and is at most `room` high, as with `front`. `NoTree` comes exactly where
/// the tokens begin with nothing of that kind. The records of its nodes aren't set.
pub fn front_within<'a>(
    alloc: Global,
    bytes: &[u8],
    names: &Names,
    room: usize,
    lexemes: &'a [Lexeme],
) -> Result<LeadingDeclaration<'a>, Parse>
    requires { room ≤ most_nesting }
    ensures found { IfOk result (λ x. FrontLeads (named bytes.now names.now) room lexemes.now (view_declaration x.tree) x.rest.now) }
    ensures unlaid { IfOk result (λ x. unlaid_declaration (view_declaration x.tree) ≡ view_declaration x.tree) }
    ensures none { IsErrOf result Parse.NoTree
        → (d : DeclarationTree) (rest : List Lexeme) → FrontLeads (named bytes.now names.now) room lexemes.now d rest → ⊥ }
{
    let (tree, rest) = function_front(alloc, bytes, names, room, lexemes)?;
    Ok(LeadingDeclaration { tree, rest })
}

/// Reads the declaration that begins at the place `at` among lexemes, and says at which place it ends. The records of
/// its nodes aren't set.
fn declaration_at(
    alloc: Global,
    bytes: &[u8],
    lexemes: &[Lexeme],
    names: &Names,
    at: usize,
    file: bool,
) -> Result<(Declaration, usize), Parse>
    requires { at ≤ length lexemes.now }
    ensures found { IfOk result (λ x. IsDeclaration (named bytes.now names.now) file lexemes.now at x.1 (view_declaration x.0)) }
    ensures unlaid { IfOk result (λ x. unlaid_declaration (view_declaration x.0) ≡ view_declaration x.0) }
    ensures none { IsErrOf result Parse.NoTree
        → (d : DeclarationTree) (to : ℕ) → IsDeclaration (named bytes.now names.now) file lexemes.now at to d → ⊥ }
{
    let (_, behind) = lexemes.split_at(at);
    let (tree, rest) = declaration(alloc, bytes, names, file, MOST_NESTING, behind)?;
    Ok((tree, lexemes.len() - rest.len()))
}

/// Reads what stands from the place `at` on among lexemes before the body of a function, and says at which place the
/// body's `{` stands. The records of its nodes aren't set.
fn front_at(
    alloc: Global,
    bytes: &[u8],
    lexemes: &[Lexeme],
    names: &Names,
    at: usize,
) -> Result<(Declaration, usize), Parse>
    requires { at ≤ length lexemes.now }
    ensures found { IfOk result (λ x. IsFront (named bytes.now names.now) lexemes.now at x.1 (view_declaration x.0)) }
    ensures unlaid { IfOk result (λ x. unlaid_declaration (view_declaration x.0) ≡ view_declaration x.0) }
    ensures none { IsErrOf result Parse.NoTree
        → (d : DeclarationTree) (to : ℕ) → IsFront (named bytes.now names.now) lexemes.now at to d → ⊥ }
{
    let (_, behind) = lexemes.split_at(at);
    let (tree, rest) = function_front(alloc, bytes, names, MOST_NESTING, behind)?;
    Ok((tree, lexemes.len() - rest.len()))
}

/// Reads the declaration that begins at the place `at` among the tokens of a text, and says at which place it ends (C11
/// 6.7): one at file scope where `file` says so, and else one in a block or a `for`.
///
/// `tokens` are those of `bytes`, at most 16,777,216, and the words that `names` has as typedef names stand for types.
/// The answered tree may stand there, fits the names, nests at most 400 deep and prints exactly the tokens from `at` up
/// to the answered place, its `;` included. `NoTree` comes exactly where no tree and no place are so. Each node has the
/// number 0 and the span of the tokens that it prints. It takes time and memory for all of the tokens.
pub fn decl(
    alloc: Global,
    bytes: &[u8],
    tokens: &[Token],
    names: &Names,
    at: usize,
    file: bool,
) -> Result<(Declaration, usize), Parse>
    requires within { at ≤ length tokens.now }
    requires few { length tokens.now ≤ most_bytes }
    ensures found { IfOk result (λ x. IsDeclaration (named bytes.now names.now) file (lexemes_of bytes.now tokens.now) at x.1 (view_declaration x.0)) }
    ensures places { IfOk result (λ x. view_declaration x.0 ≡ laid_declaration (unnumbered_at (spans_of tokens.now)) 0 at (unlaid_declaration (view_declaration x.0))) }
    ensures none { IsErrOf result Parse.NoTree
        → (d : DeclarationTree) (to : ℕ) → IsDeclaration (named bytes.now names.now) file (lexemes_of bytes.now tokens.now) at to d → ⊥ }
{
    let lexemes = lexemes_of(alloc, bytes, tokens)?;
    let spans = spans_of(alloc, tokens)?;
    let (mut tree, end) = declaration_at(alloc, bytes, lexemes.as_slice(), names, at, file)?;
    span_declaration(&mut tree, at as u32, spans.as_slice());
    Ok((tree, end))
}

/// Reads what stands from the place `at` on among the tokens of a text before the body of a function, and says at which
/// place the body's `{` stands (C11 6.9.1).
///
/// The answered tree is the storage word, the base and the declarator, as a declaration with this one declarator. It
/// fits the names, nests at most 400 deep and prints exactly the tokens from `at` up to the answered place, without a
/// `;`. `NoTree` comes exactly where no tree and no place are so. Nodes, time and memory are as with `decl`.
pub fn front(
    alloc: Global,
    bytes: &[u8],
    tokens: &[Token],
    names: &Names,
    at: usize,
) -> Result<(Declaration, usize), Parse>
    requires within { at ≤ length tokens.now }
    requires few { length tokens.now ≤ most_bytes }
    ensures found { IfOk result (λ x. IsFront (named bytes.now names.now) (lexemes_of bytes.now tokens.now) at x.1 (view_declaration x.0)) }
    ensures places { IfOk result (λ x. view_declaration x.0 ≡ laid_declaration (unnumbered_at (spans_of tokens.now)) 0 at (unlaid_declaration (view_declaration x.0))) }
    ensures none { IsErrOf result Parse.NoTree
        → (d : DeclarationTree) (to : ℕ) → IsFront (named bytes.now names.now) (lexemes_of bytes.now tokens.now) at to d → ⊥ }
{
    let lexemes = lexemes_of(alloc, bytes, tokens)?;
    let spans = spans_of(alloc, tokens)?;
    let (mut tree, end) = front_at(alloc, bytes, lexemes.as_slice(), names, at)?;
    span_declaration(&mut tree, at as u32, spans.as_slice());
    Ok((tree, end))
}
