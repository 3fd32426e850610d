//! Items of the words on the command line.

ghost use Rattle.std.specs.Prelude.{◌≡◌, ◌++◌, ◌∷◌, ℕ, List, map, MatchOption};
ghost use Rattle.std.specs.String.{string_bytes};
ghost use Rattle.stk_records.specs.declared.options.Item.{Item as Meant};
ghost use Rattle.stk_records.specs.declared.items.Form.{Form as Begun};
ghost use Rattle.stk_records.specs.Words.{form_word, IsNumber, IsScriptAsked, IsText, IsOnlyText, IsItem, IsItemAlone};

use crate::kinds::kinds_in;
use crate::numbers::number_in;
use crate::options::{AskedScript, ConditionSet, Item};

// The greatest budget, and the most functions that are generated.
const MOST_BUDGET: u32 = 200_000;

const MOST_FUNCTIONS: u32 = 1_000;

// The words that are items, or begin them.
#[derive(Clone, Copy, Debug, PartialEq, Eq)]
enum Form {
    Json,
    Budget,
    Without,
    Generate,
    Functions,
    Smt,
    SmtHit,
    Bundle,
}

// Which of these a word is.
fn form_of(word: &[u8]) -> Option<Form>
    ensures { MatchOption result ((f : Begun) → word.now ≡ form_word f → ⊥) (λ f. word.now ≡ form_word f) }
{
    match word {
        b"--json" => Some(Form::Json),
        b"--budget" => Some(Form::Budget),
        b"--without" => Some(Form::Without),
        b"--generate" => Some(Form::Generate),
        b"--functions" => Some(Form::Functions),
        b"--smt" => Some(Form::Smt),
        b"--smt-hit" => Some(Form::SmtHit),
        b"--bundle" => Some(Form::Bundle),
        _ => None,
    }
}

// What stands behind `=`, in a word that begins with another one.
fn joined<'a>(word: &'a [u8], start: &[u8]) -> Option<&'a [u8]>
    ensures { MatchOption result ((text : List ℕ) → word.now ≡ start.now ++ 61 ∷ text → ⊥) (λ text. word.now ≡ start.now ++ 61 ∷ text.now) }
{
    if word.len() < start.len() {
        return None;
    }
    let (front, behind) = word.split_at(start.len());
    if front != start {
        return None;
    }
    match behind.split_first() {
        Some((b'=', text)) => Some(text),
        _ => None,
    }
}

// Which of these a word begins with that has `=` behind it, and what stands behind that.
fn joined_form<'a>(word: &'a [u8]) -> Option<(Form, &'a [u8])>
    ensures { MatchOption result ((f : Begun) (text : List ℕ) → word.now ≡ form_word f ++ 61 ∷ text → ⊥) (λ p. word.now ≡ form_word p.0 ++ 61 ∷ p.1.now) }
{
    if let Some(text) = joined(word, b"--json") {
        return Some((Form::Json, text));
    }
    if let Some(text) = joined(word, b"--budget") {
        return Some((Form::Budget, text));
    }
    if let Some(text) = joined(word, b"--without") {
        return Some((Form::Without, text));
    }
    if let Some(text) = joined(word, b"--generate") {
        return Some((Form::Generate, text));
    }
    if let Some(text) = joined(word, b"--functions") {
        return Some((Form::Functions, text));
    }
    if let Some(text) = joined(word, b"--smt") {
        return Some((Form::Smt, text));
    }
    if let Some(text) = joined(word, b"--smt-hit") {
        return Some((Form::SmtHit, text));
    }
    if let Some(text) = joined(word, b"--bundle") {
        return Some((Form::Bundle, text));
    }
    None
}

// A number from 1 up to a bound.
fn count_in(text: &[u8], most: u32) -> Option<u32>
    ensures { MatchOption result ((n : ℕ) → IsNumber 1 most text.now n → ⊥) (IsNumber 1 most text.now) }
{
    let number = number_in(text, 1, u64::from(most))?;
    Some(number as u32)
}

// The item that asks for a script of the query of a candidate for a set of conditions.
fn script_in(text: &[u8], set: ConditionSet) -> Option<Item>
    ensures { MatchOption result ((x : Meant) → IsScriptAsked set text.now x → ⊥) (IsScriptAsked set text.now) }
{
    let number = number_in(text, 1, u64::MAX)?;
    Some(Item::Script(AskedScript { number, set }))
}

// The item of a form and a text.
fn text_item(form: Form, text: &[u8]) -> Option<Item>
    ensures { MatchOption result ((x : Meant) → IsText form text.now x → ⊥) (IsOnlyText form text.now) }
{
    match form {
        Form::Json | Form::Bundle => None,
        Form::Budget => Some(Item::Budget(count_in(text, MOST_BUDGET)?)),
        Form::Without => Some(Item::Without(kinds_in(text)?)),
        Form::Generate => Some(Item::Generate(number_in(text, 0, u64::MAX)?)),
        Form::Functions => Some(Item::Functions(count_in(text, MOST_FUNCTIONS)?)),
        Form::Smt => script_in(text, ConditionSet::All),
        Form::SmtHit => script_in(text, ConditionSet::Empty),
    }
}

// The item of a form whose text is a word of its own, and the words behind it.
fn apart_item<'a>(form: Form, left: &'a [String]) -> Option<(Item, &'a [String])>
    ensures { MatchOption result ((text : List ℕ) (behind : List (List ℕ)) (x : Meant) → map string_bytes left.now ≡ text ∷ behind → IsText form text x → ⊥) (λ p. (text : List ℕ) × (map string_bytes left.now ≡ text ∷ map string_bytes p.1.now) × IsOnlyText form text p.0) }
{
    let (text, behind) = left.split_first()?;
    let found = text_item(form, text.as_bytes())?;
    Some((found, behind))
}

// The item in front of words, of which the first one is that of a form, and the words behind it.
fn form_item<'a>(form: Form, left: &'a [String]) -> Option<(Item, &'a [String])>
    ensures { MatchOption result ((x : Meant) (behind : List (List ℕ)) → IsItem (form_word form ∷ map string_bytes left.now) x behind → ⊥) (λ p. IsItemAlone (form_word form ∷ map string_bytes left.now) p.0 (map string_bytes p.1.now)) }
{
    match form {
        Form::Json => Some((Item::Json, left)),
        Form::Bundle => Some((Item::Bundle, left)),
        _ => apart_item(form, left),
    }
}

// The item in front of words that is one word with `=` in it.
fn joined_item<'a>(first: &[u8], left: &'a [String]) -> Option<(Item, &'a [String])>
    requires { (f : Begun) → first.now ≡ form_word f → ⊥ }
    ensures { MatchOption result ((x : Meant) (behind : List (List ℕ)) → IsItem (first.now ∷ map string_bytes left.now) x behind → ⊥) (λ p. IsItemAlone (first.now ∷ map string_bytes left.now) p.0 (map string_bytes p.1.now)) }
{
    let (form, text) = joined_form(first)?;
    let found = text_item(form, text)?;
    Some((found, left))
}

// The item in front of words, of which the first one is at hand, and the words behind it.
pub(crate) fn item<'a>(first: &[u8], left: &'a [String]) -> Option<(Item, &'a [String])>
    ensures { MatchOption result ((x : Meant) (behind : List (List ℕ)) → IsItem (first.now ∷ map string_bytes left.now) x behind → ⊥) (λ p. IsItemAlone (first.now ∷ map string_bytes left.now) p.0 (map string_bytes p.1.now)) }
{
    match form_of(first) {
        Some(form) => form_item(form, left),
        None => joined_item(first, left),
    }
}
