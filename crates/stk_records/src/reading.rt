//! The words on the command line, as a whole.

ghost use Rattle.std.specs.Prelude.{◌≡◌, map, MatchOption, IfOk, IfErr};
ghost use Rattle.std.specs.String.{string_bytes};
ghost use Rattle.stk_records.specs.declared.options.Options.{Options as Asked};
ghost use Rattle.stk_records.specs.Words.{AreLegal, with_item, has_come, stand_together, options_of, nothing_seen};

use crate::items::item;
use crate::options::{Item, Options, Seen, WordsFault};
use stk_numbers::Kinds;

// The budget where none is given, and the kinds where none are.
const USUAL_BUDGET: u32 = 20_000;

// Before the first item.
fn nothing_seen() -> Seen
    ensures { result ≡ nothing_seen }
{
    Seen {
        json: false,
        budget: None,
        without: None,
        generate: None,
        functions: None,
        script: None,
        bundle: false,
    }
}

// Whether an item has come.
fn has_come(seen: Seen, found: Item) -> bool
    ensures { result ≡ has_come seen found }
{
    match found {
        Item::Json => seen.json,
        Item::Budget(_) => seen.budget.is_some(),
        Item::Without(_) => seen.without.is_some(),
        Item::Generate(_) => seen.generate.is_some(),
        Item::Functions(_) => seen.functions.is_some(),
        Item::Script(_) => seen.script.is_some(),
        Item::Bundle => seen.bundle,
    }
}

// One item more.
fn with_item(seen: Seen, found: Item) -> Seen
    ensures { result ≡ with_item seen found }
{
    match found {
        Item::Json => Seen { json: true, ..seen },
        Item::Budget(budget) => Seen {
            budget: Some(budget),
            ..seen
        },
        Item::Without(kinds) => Seen {
            without: Some(kinds),
            ..seen
        },
        Item::Generate(number) => Seen {
            generate: Some(number),
            ..seen
        },
        Item::Functions(count) => Seen {
            functions: Some(count),
            ..seen
        },
        Item::Script(asked) => Seen {
            script: Some(asked),
            ..seen
        },
        Item::Bundle => Seen {
            bundle: true,
            ..seen
        },
    }
}

// Whether the items may stand together.
fn stand_together(seen: Seen) -> bool
    ensures { result ≡ stand_together seen }
{
    if seen.generate.is_some() {
        return seen.functions.is_some() && seen.script.is_none() && !seen.bundle;
    }
    if seen.functions.is_some() {
        return false;
    }
    if seen.script.is_some() {
        return !seen.bundle && !seen.json;
    }
    !seen.bundle || !seen.json
}

// What the items ask for.
fn options_of(seen: Seen) -> Options
    ensures { result ≡ options_of seen }
{
    Options {
        json: seen.json,
        budget: seen.budget.unwrap_or(USUAL_BUDGET),
        without: seen.without.unwrap_or(Kinds {
            overflow: false,
            zero: false,
            shift: false,
            null: false,
            pointer: false,
            bounds: false,
            abs: false,
            copy: false,
        }),
        generate: seen.generate.zip(seen.functions),
        script: seen.script,
        bundle: seen.bundle,
    }
}

/// The options that the words on the command line ask for, in any order, each at most once: `--json`; `--budget N`,
/// from 1 to 200,000; `--without LIST`, LIST being one or more of overflow, zero, shift, null, pointer, bounds, abs and
/// copy, each at most once, with a comma between each two; `--generate M`, from 0 to 2^64 - 1, and `--functions N`,
/// from 1 to 1,000, one exactly where the other stands; and at most one of `--smt N` and `--smt-hit N`, from 1 to 2^64
/// - 1, a script for all conditions or for none, and `--bundle`, and none of these beside `--json`, `--generate` and
/// `--functions`. The word behind an item may stand in the same word, behind `=`; a number is 1 to 20 decimal digits.
/// `Bad` exactly where the words are no such list. It takes no memory.
pub fn words(words: &[String]) -> Result<Options, WordsFault>
    ensures legal { IfOk result (AreLegal (map string_bytes words.now)) }
    ensures bad { IfErr result (λ fault. (o : Asked) → AreLegal (map string_bytes words.now) o → ⊥) }
{
    let mut seen = nothing_seen();
    let mut rest = words;
    'items: while let Some((first, left)) = rest.split_first() {
        let Some((found, behind)) = item(first.as_bytes(), left) else {
            return Err(WordsFault::Bad);
        };
        if has_come(seen, found) {
            return Err(WordsFault::Bad);
        }
        seen = with_item(seen, found);
        rest = behind;
    }
    if stand_together(seen) {
        return Ok(options_of(seen));
    }
    Err(WordsFault::Bad)
}
