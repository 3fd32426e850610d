//! The six forms of a generated function, and how each is spelled.

ghost use Rattle.std.specs.Prelude.{◌≡◌, ◌++◌, IfOk, decimal};
ghost use Rattle.stk_gen.specs.Forms.{form_of, before_constant, behind_constant, function_line};

use itoa::Buffer;
use stk_base::NoMemory;

/// What a generated function does.
#[derive(Clone, Copy, Debug, PartialEq, Eq)]
pub(crate) enum Form {
    /// It divides by its parameter before it tests that for 0.
    Division,
    /// It compares a signed sum with its first term.
    SignedSum,
    /// It compares an unsigned sum with its first term.
    UnsignedSum,
    /// It compares the sum of a pointer and a number with the pointer.
    PointerSum,
    /// It reads through a pointer before it tests that for null.
    Dereference,
    /// It counts from 0 up to its parameter.
    Counting,
}

/// The form of a number below 6; of each other number it is the last one.
pub(crate) fn form_of(number: u64) -> Form
    ensures { result ≡ form_of number }
{
    match number {
        0 => Form::Division,
        1 => Form::SignedSum,
        2 => Form::UnsignedSum,
        3 => Form::PointerSum,
        4 => Form::Dereference,
        _ => Form::Counting,
    }
}

// What stands between a function's name and its constant.
fn before_constant(form: Form) -> &'static [u8]
    ensures { result.now ≡ before_constant form }
{
    match form {
        Form::Division => b"(unsigned char x) { int y = ",
        Form::SignedSum => b"(int x) { if (x + ",
        Form::UnsignedSum => b"(unsigned x) { if (x + ",
        Form::PointerSum => b"(char *p, unsigned n) { if (p + n < p) return ",
        Form::Dereference => b"(int *p) { int v = *p; if (!p) return ",
        Form::Counting => b"(int n) { int i; for (i = 0; i < n; i++) if (i == ",
    }
}

// What stands behind a function's constant, up to the end of its line.
fn behind_constant(form: Form) -> &'static [u8]
    ensures { result.now ≡ behind_constant form }
{
    match form {
        Form::Division => b" / x; if (x == 0) return 1; return y; }\n",
        Form::SignedSum => b" < x) return 1; return 0; }\n",
        Form::UnsignedSum => b" < x) return 1; return 0; }\n",
        Form::PointerSum => b"; return 0; }\n",
        Form::Dereference => b"; return v; }\n",
        Form::Counting => b") return 1; return 0; }\n",
    }
}

// Adds bytes to a text.
fn add(text: &mut Vec<u8>, bytes: &[u8]) -> Result<(), NoMemory>
    ensures { IfOk result (λ _. text.new.items ≡ text.old.items ++ bytes.now) }
{
    text.extend_from_slice(bytes)?;
    Ok(())
}

// Adds a number.
fn add_number(text: &mut Vec<u8>, number: u64) -> Result<(), NoMemory>
    ensures { IfOk result (λ _. text.new.items ≡ text.old.items ++ decimal number) }
{
    let mut buffer = Buffer::new();
    add(text, buffer.format(number).as_bytes())
}

/// Adds the line of a function of a form, named by its place, with a constant.
pub(crate) fn add_function(
    text: &mut Vec<u8>,
    form: Form,
    place: u32,
    constant: u64,
) -> Result<(), NoMemory>
    ensures { IfOk result (λ _. text.new.items ≡ text.old.items ++ function_line form place constant) }
{
    add(text, b"int f")?;
    add_number(text, u64::from(place))?;
    add(text, before_constant(form))?;
    add_number(text, constant)?;
    add(text, behind_constant(form))
}
