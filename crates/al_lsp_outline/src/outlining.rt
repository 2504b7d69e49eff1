// The outline of a source.
ghost use Rattle.std.specs.Prelude.{◌≡◌, ◌≤◌, IfOk, length, map};
ghost use Rattle.std.specs.List.{All};
ghost use Rattle.al_lsp_outline.specs.Nested.{AreNested, HasName};
ghost use Rattle.al_lsp_outline.specs.Units.{text_declared};

use crate::declared::Declared;
use crate::range::{Symbol, widen};
use crate::units::unit_declared;
use crate::words::symbols_in;
use al_base::NoMemory;
use al_lex::{LexError, Token, lex};
use al_unit::read;
use std::alloc::Global;

// What a source declares.
fn text_declared(alloc: Global, text: &[u8]) -> Result<Vec<Declared>, NoMemory>
    requires { length text.now ≤ 4294967294 }
    ensures { IfOk result (λ list. list.items ≡ text_declared text.now) }
{
    match read(alloc, text)?.into_unit() {
        Some(unit) => unit_declared(alloc, &unit),
        None => Ok(Vec::new(alloc)),
    }
}

// The tokens of a source; none where it isn't cut into tokens.
fn tokens_of(alloc: Global, text: &[u8]) -> Result<Vec<Token>, NoMemory>
    requires { length text.now ≤ 4294967294 }
{
    match lex(alloc, text) {
        Ok(tokens) => Ok(tokens),
        Err(LexError::Fault(_)) => Ok(Vec::new(alloc)),
        Err(LexError::NoMemory) => Err(NoMemory),
    }
}

fn nested(alloc: Global, tokens: &[Token], declared: &[Declared]) -> Result<Vec<Symbol>, NoMemory>
    ensures declared { IfOk result (λ symbols. map (λ s. s.declared) symbols.items ≡ declared.now) }
    ensures names { IfOk result (λ symbols. All HasName symbols.items) }
    ensures nested { IfOk result (λ symbols. AreNested symbols.items) }
{
    let mut symbols = symbols_in(alloc, tokens, declared)?;
    widen(&mut symbols);
    Ok(symbols)
}

/// A source of more bytes is none.
pub const MAX_SOURCE: usize = 4_294_967_294;

/// What a source declares, in the order of the names, with ranges: units, types with literals and components, objects, subprograms, tasks,
/// protected objects with operations and components. Where it is no unit, nothing.
///
/// # Errors
///
/// `NoMemory` if the allocator refuses memory.
pub fn outline(alloc: Global, text: &[u8]) -> Result<Vec<Symbol>, NoMemory>
    requires { length text.now ≤ 4294967294 }
    ensures declared { IfOk result (λ symbols. map (λ s. s.declared) symbols.items ≡ text_declared text.now) }
    ensures names { IfOk result (λ symbols. All HasName symbols.items) }
    ensures nested { IfOk result (λ symbols. AreNested symbols.items) }
{
    let declared = text_declared(alloc, text)?;
    let tokens = tokens_of(alloc, text)?;
    nested(alloc, tokens.as_slice(), declared.as_slice())
}
