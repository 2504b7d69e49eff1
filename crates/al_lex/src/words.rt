// Words: identifiers and reserved words.
ghost use Rattle.std.specs.Prelude.{◌≡◌, ◌≤◌, ◌<◌, IfOk, IfSome, IfNone, length, slice_index, take, true, false};
ghost use Rattle.std.specs.Char.{is_ascii_alphabetic};
ghost use Rattle.std.specs.List.{prefix_len};
ghost use Rattle.al_base.specs.Identifiers.{has_bad_underscore, is_word_byte};
ghost use Rattle.al_lex.specs.Words.{word, word_kind};

use crate::token::{Kind, LexCode, Piece, Sort};
use al_base::{MAX_IDENTIFIER, reserved_word};

/// For each byte, whether it is a letter, a digit or `_`.
const WORD_BYTES: [bool; 256] = [
    false, false, false, false, false, false, false, false, false, false, false, false, false,
    false, false, false, false, false, false, false, false, false, false, false, false, false,
    false, false, false, false, false, false, false, false, false, false, false, false, false,
    false, false, false, false, false, false, false, false, false, true, true, true, true, true,
    true, true, true, true, true, false, false, false, false, false, false, false, true, true,
    true, true, true, true, true, true, true, true, true, true, true, true, true, true, true, true,
    true, true, true, true, true, true, true, true, false, false, false, false, true, false, true,
    true, true, true, true, true, true, true, true, true, true, true, true, true, true, true, true,
    true, true, true, true, true, true, true, true, true, false, false, false, false, false, false,
    false, false, false, false, false, false, false, false, false, false, false, false, false,
    false, false, false, false, false, false, false, false, false, false, false, false, false,
    false, false, false, false, false, false, false, false, false, false, false, false, false,
    false, false, false, false, false, false, false, false, false, false, false, false, false,
    false, false, false, false, false, false, false, false, false, false, false, false, false,
    false, false, false, false, false, false, false, false, false, false, false, false, false,
    false, false, false, false, false, false, false, false, false, false, false, false, false,
    false, false, false, false, false, false, false, false, false, false, false, false, false,
    false, false, false, false, false, false, false, false, false, false, false, false, false,
    false, false, false, false, false, false, false, false, false, false,
];

/// Whether the byte is a letter, a digit or `_`.
#[inline(always)]
fn is_in_word(b: u8) -> bool
    ensures { result ≡ is_word_byte b }
{
    WORD_BYTES[usize::from(b)]
}

/// How long the word at the beginning is; none if an underscore is at an end of it or after another.
fn word_len(bytes: &[u8]) -> Option<usize>
    ensures exact { IfSome result (λ n. n ≡ prefix_len is_word_byte bytes.now) }
    ensures joined { IfSome result (λ n. has_bad_underscore (take n bytes.now) ≡ false) }
    ensures none { IfNone result (has_bad_underscore (take (prefix_len is_word_byte bytes.now) bytes.now) ≡ true) }
    ensures within { IfSome result (λ n. n ≤ length bytes.now) }
{
    let mut len = 0;
    let mut begins = true;
    while len < bytes.len() && is_in_word(bytes[len]) {
        let underscore = bytes[len] == b'_';
        if underscore && begins {
            return None;
        }
        begins = underscore;
        len += 1;
    }
    if begins { None } else { Some(len) }
}

fn word_kind(word: &[u8]) -> Kind
    ensures { result ≡ word_kind word.now }
{
    match reserved_word(word) {
        Some(reserved) => Kind::Reserved(reserved),
        None => Kind::Identifier,
    }
}

/// The word at the beginning of a source that begins with a letter.
#[tactic(auto, using(crate::proofs::Runs::some_word), unfolding(crate::specs::Words::word))]
#[inline(always)]
pub(crate) fn word(bytes: &[u8]) -> Result<Piece, LexCode>
    requires { is_ascii_alphabetic (slice_index bytes.now 0) ≡ true }
    ensures exact { result ≡ word bytes.now }
    ensures within { IfOk result (λ q. q.len ≤ length bytes.now) }
    ensures some { IfOk result (λ q. 0 < q.len) }
{
    let Some(len) = word_len(bytes) else {
        return Err(LexCode::BadIdentifier);
    };
    if len > MAX_IDENTIFIER {
        return Err(LexCode::IdentifierTooLong);
    }
    Ok(Piece {
        sort: Sort::Lexeme(word_kind(&bytes[..len])),
        len,
    })
}
