// The texts of lines.
ghost use Rattle.std.specs.Prelude.{◌≡◌, ◌++◌, ◌∷◌, [], IfOk, decimal, codes};
ghost use Rattle.stk_bundle.specs.Numbers.{numbers_text};
ghost use Rattle.stk_bundle.specs.Kinds.{kinds_text};
ghost use Rattle.stk_bundle.specs.Lines.{line_text};

use crate::BundleLine;
use crate::kinds::add_kinds;
use itoa::Buffer;
use stk_base::NoMemory;
use stk_numbers::UbKind;

/// Adds bytes to a text.
pub(crate) fn add(text: &mut Vec<u8>, bytes: &[u8]) -> Result<(), NoMemory>
    ensures { IfOk result (λ _. text.new.items ≡ text.old.items ++ bytes.now) }
{
    text.extend_from_slice(bytes)?;
    Ok(())
}

/// Adds a number behind a space.
fn add_number(text: &mut Vec<u8>, number: u64) -> Result<(), NoMemory>
    ensures { IfOk result (λ _. text.new.items ≡ text.old.items ++ (32 ∷ decimal number)) }
{
    let mut buffer = Buffer::new();
    add(text, b" ")?;
    add(text, buffer.format(number).as_bytes())
}

/// Adds numbers, each behind a space.
fn add_numbers(text: &mut Vec<u8>, numbers: &[u64]) -> Result<(), NoMemory>
    ensures { IfOk result (λ _. text.new.items ≡ text.old.items ++ numbers_text numbers.now) }
{
    for number in numbers {
        add_number(text, *number)?;
    }
    Ok(())
}

/// Adds a word, and numbers behind it.
fn add_words(text: &mut Vec<u8>, word: &[u8], numbers: &[u64]) -> Result<(), NoMemory>
    ensures { IfOk result (λ _. text.new.items ≡ text.old.items ++ (word.now ++ numbers_text numbers.now)) }
{
    add(text, word)?;
    add_numbers(text, numbers)
}

/// Adds the line of a condition that a start shows to be needed.
fn add_need(text: &mut Vec<u8>, node: u64, kind: u64, start: &[u64]) -> Result<(), NoMemory>
    ensures { IfOk result (λ _. text.new.items ≡ text.old.items ++ (codes "need" ++ numbers_text (node ∷ kind ∷ start.now))) }
{
    add_words(text, b"need", &[node, kind])?;
    add_numbers(text, start)
}

/// Adds the line of kinds that don't count.
fn add_without(text: &mut Vec<u8>, kinds: &[UbKind]) -> Result<(), NoMemory>
    ensures { IfOk result (λ _. text.new.items ≡ text.old.items ++ (codes "without " ++ kinds_text kinds.now)) }
{
    add(text, b"without ")?;
    add_kinds(text, kinds)
}

/// Adds a line without its newline.
fn add_content(text: &mut Vec<u8>, line: &BundleLine) -> Result<(), NoMemory>
    ensures { IfOk result (λ _. text.new.items ≡ text.old.items ++ line_text line.now) }
{
    match line {
        BundleLine::Head => add(text, b"stack bundle 1"),
        BundleLine::Source { length } => add_words(text, b"source", &[*length]),
        BundleLine::Without { kinds } => add_without(text, kinds.as_slice()),
        BundleLine::Function { at } => add_words(text, b"function", &[*at]),
        BundleLine::Unstable { node, kind } => add_words(text, b"unstable", &[*node, *kind]),
        BundleLine::Hit { start } => add_words(text, b"hit", start.as_slice()),
        BundleLine::Need { node, kind, start } => add_need(text, *node, *kind, start.as_slice()),
        BundleLine::Open { node, kind } => add_words(text, b"open", &[*node, *kind]),
        BundleLine::Tried => add(text, b"tried"),
        BundleLine::Clauses { lines } => add_words(text, b"cnf", &[*lines]),
        BundleLine::Steps { lines } => add_words(text, b"lrat", &[*lines]),
        BundleLine::Left { node, kind } => add_words(text, b"left", &[*node, *kind]),
        BundleLine::End => add(text, b"end"),
    }
}

/// Adds the text of a line to a text, with its newline. After `NoMemory` the text is of no use.
pub fn add_line(text: &mut Vec<u8>, line: &BundleLine) -> Result<(), NoMemory>
    ensures { IfOk result (λ _. text.new.items ≡ text.old.items ++ (line_text line.now ++ 10 ∷ [])) }
{
    add_content(text, line)?;
    add(text, b"\n")
}
