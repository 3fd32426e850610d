// What both writers add to a text: bytes, numbers and literals.
ghost use Rattle.std.specs.Prelude.{◌≡◌, ◌++◌, decimal, IfOk};
ghost use Rattle.stk_proofs.specs.Dimacs.{literal_text, literals_text};

use itoa::Buffer;
use stk_base::NoMemory;
use stk_clauses::Lit;

/// Adds bytes to a text.
pub(crate) fn add(text: &mut Vec<u8>, bytes: &[u8]) -> Result<(), NoMemory>
    ensures { IfOk result (λ _. text.new.items ≡ text.old.items ++ bytes.now) }
{
    text.extend_from_slice(bytes)?;
    Ok(())
}

/// Adds a number.
pub(crate) fn add_number(text: &mut Vec<u8>, number: u32) -> Result<(), NoMemory>
    ensures { IfOk result (λ _. text.new.items ≡ text.old.items ++ decimal number) }
{
    let mut buffer = Buffer::new();
    add(text, buffer.format(number).as_bytes())
}

/// Adds a literal.
fn add_literal(text: &mut Vec<u8>, literal: Lit) -> Result<(), NoMemory>
    ensures { IfOk result (λ _. text.new.items ≡ text.old.items ++ literal_text literal) }
{
    let number = literal.variable() + 1;
    if literal.is_negated() {
        add(text, b"-")?;
        add_number(text, number)
    } else {
        add_number(text, number)
    }
}

/// Adds literals, each with a space behind it.
pub(crate) fn add_literals(text: &mut Vec<u8>, literals: &[Lit]) -> Result<(), NoMemory>
    ensures { IfOk result (λ _. text.new.items ≡ text.old.items ++ literals_text literals.now) }
{
    for literal in literals {
        add_literal(text, *literal)?;
        add(text, b" ")?;
    }
    Ok(())
}
