// The numbers of a line.
ghost use Rattle.std.specs.Prelude.{◌≡◌, ℕ, List, [], ◌∷◌, IfOk, IfErr};
ghost use Rattle.stk_proofs.specs.declared.text.Text.TheVariants as texts;
ghost use Rattle.stk_bundle.specs.Numbers.{AreNumbers};

use std::alloc::Global;
use stk_base::List;
use stk_line_reading::next_number;
use stk_proofs::Text;

/// The number that a text is behind a space; `Bad` for every other text.
pub(crate) fn one_number(text: &[u8]) -> Result<u64, Text>
    ensures ok { IfOk result (λ n. AreNumbers text.now (n ∷ [])) }
    ensures bad { IfErr result (λ fault. (n : ℕ) → AreNumbers text.now (n ∷ []) → ⊥) }
{
    let Some((number, behind)) = next_number(text) else {
        return Err(Text::Bad);
    };
    if behind.is_empty() {
        Ok(number)
    } else {
        Err(Text::Bad)
    }
}

/// The two numbers that a text is, each behind a space; `Bad` for every other text.
pub(crate) fn two_numbers(text: &[u8]) -> Result<(u64, u64), Text>
    ensures ok { IfOk result (λ p. AreNumbers text.now (p.0 ∷ p.1 ∷ [])) }
    ensures bad { IfErr result (λ fault. (m n : ℕ) → AreNumbers text.now (m ∷ n ∷ []) → ⊥) }
{
    let Some((first, behind)) = next_number(text) else {
        return Err(Text::Bad);
    };
    let second = one_number(behind)?;
    Ok((first, second))
}

/// The numbers that a text is, each behind a space; `Bad` exactly where it is no such text.
pub(crate) fn numbers_in(alloc: Global, text: &[u8]) -> Result<List<u64>, Text>
    ensures ok { IfOk result (AreNumbers text.now) }
    ensures bad { IfErr result (λ fault. fault ≡ texts.Bad → (ns : List ℕ) → AreNumbers text.now ns → ⊥) }
{
    let mut numbers = Vec::new(alloc);
    let mut left = text;
    while !left.is_empty() {
        let Some((number, behind)) = next_number(left) else {
            return Err(Text::Bad);
        };
        numbers.push(number)?;
        left = behind;
    }
    Ok(List::from_vec(numbers))
}

/// The two numbers that a text begins with, and the others, each behind a space; `Bad` exactly where it is no such
/// text.
pub(crate) fn two_and_more(alloc: Global, text: &[u8]) -> Result<(u64, u64, List<u64>), Text>
    ensures ok { IfOk result (λ p. AreNumbers text.now (p.0 ∷ p.1 ∷ p.2)) }
    ensures bad { IfErr result (λ fault. fault ≡ texts.Bad → (m n : ℕ) (ns : List ℕ) → AreNumbers text.now (m ∷ n ∷ ns) → ⊥) }
{
    let Some((first, behind)) = next_number(text) else {
        return Err(Text::Bad);
    };
    let Some((second, rest)) = next_number(behind) else {
        return Err(Text::Bad);
    };
    let others = numbers_in(alloc, rest)?;
    Ok((first, second, others))
}
