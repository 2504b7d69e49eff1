// Names of enumeration literals, as a program puts them.
ghost use Rattle.std.specs.Prelude.{◌≡◌, ◌≤◌, length, map, IfOk, All};
ghost use Rattle.al_instr.specs.Codes.{IsName};
ghost use Rattle.al_code.specs.Pieces.{printed};

use al_base::{Name, NoMemory};
use al_instr::{Word, Words};
use std::alloc::Global;

/// The names as an instruction holds them.
pub(crate) fn printed_names(alloc: Global, names: &[Name]) -> Result<Words, NoMemory>
    requires { length names.now ≤ 16777216 }
    ensures value { IfOk result (λ words. words ≡ map printed names.now) }
    ensures fits { IfOk result (λ words. All IsName words) }
{
    let mut words = Words::new(alloc);
    for name in names {
        words.push(printed(alloc, name)?)?;
    }
    Ok(words)
}

fn printed(alloc: Global, name: &Name) -> Result<Word, NoMemory>
    ensures value { IfOk result (λ word. word ≡ printed name.now) }
    ensures fits { IfOk result (λ word. IsName word) }
{
    let bytes = name.as_slice();
    let end = bytes.len().min(255);
    Word::from_slice(alloc, &bytes[..end])
}
