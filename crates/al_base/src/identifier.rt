// Identifiers and the names of units.
ghost use Rattle.std.specs.Prelude.{◌≡◌};
ghost use Rattle.std.specs.List.{list_all};
ghost use Rattle.al_base.specs.Identifiers.{is_word_byte, has_bad_underscore, begins_with_letter, has_identifier_shape, is_identifier, is_unit_name};

use crate::reserved::reserved_word;

/// The most bytes that an identifier may have (ARM 2.2 leaves the limit to the implementation).
pub const MAX_IDENTIFIER: usize = 200;

/// Whether the byte is a letter, a digit or `_`.
pub fn is_word_byte(b: u8) -> bool
    ensures { result ≡ is_word_byte b }
{
    b.is_ascii_alphanumeric() || b == b'_'
}

/// Whether two `_` come together, or one is at an end (ARM 2.3).
pub fn has_bad_underscore(word: &[u8]) -> bool
    ensures { result ≡ has_bad_underscore word.now }
{
    word.split(|b| *b == b'_').any(|part| part.is_empty())
}

#[tactic(auto, unfolding(crate::specs::Identifiers::is_identifier))]
/// Whether the bytes are an identifier (ARM 2.3): a letter, and then letters, digits and single `_`, none of them last, in
/// at most `MAX_IDENTIFIER` bytes. A reserved word isn't one.
pub fn is_identifier(word: &[u8]) -> bool
    ensures { result ≡ is_identifier word.now }
{
    has_identifier_shape(word) && reserved_word(word).is_none()
}

fn has_identifier_shape(word: &[u8]) -> bool
    ensures { result ≡ has_identifier_shape word.now }
{
    if word.len() > MAX_IDENTIFIER || has_bad_underscore(word) {
        return false;
    }
    begins_with_letter(word) && are_word_bytes(word)
}

fn are_word_bytes(word: &[u8]) -> bool
    ensures { result ≡ list_all is_word_byte word.now }
{
    word.iter().all(|b| is_word_byte(*b))
}

fn begins_with_letter(word: &[u8]) -> bool
    ensures { result ≡ begins_with_letter word.now }
{
    match word {
        [first, ..] => first.is_ascii_alphabetic(),
        [] => false,
    }
}

/// Whether the bytes are the name of a library unit or a subunit: identifiers with single dots between them (ARM 10.1.1).
pub fn is_unit_name(word: &[u8]) -> bool
    ensures { result ≡ is_unit_name word.now }
{
    word.split(|b| *b == b'.').all(is_identifier)
}
