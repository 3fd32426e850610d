//! The numbers of an input map, as a path run takes them.

ghost use Rattle.std.specs.Prelude.{◌≡◌, map, IfOk};
ghost use Rattle.stk_function_env.specs.Infos.{info_in};
ghost use Rattle.stk_first_maps.specs.Words.{wrapped_by};

use std::alloc::Global;
use stk_base::NoMemory;
use stk_function_env::KeyInfo;
use stk_operators::Word;

/// Numbers, converted each to the kind of its key.
pub fn words_of(alloc: Global, keys: &[KeyInfo], numbers: &[i128]) -> Result<Vec<Word>, NoMemory>
    ensures { IfOk result (λ words. words.items ≡ wrapped_by (map info_in keys.now) numbers.now) }
{
    let mut words = Vec::new(alloc);
    let mut rest = numbers;
    for info in keys {
        let Some((number, behind)) = rest.split_first() else {
            return Ok(words);
        };
        rest = behind;
        words.push(Word::wrapped(info.kind, *number))?;
    }
    Ok(words)
}
