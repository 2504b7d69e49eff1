// Numbers.
ghost use Rattle.std.specs.Prelude.{◌≡◌, ◌≤◌, ◌<◌, ◌+◌, ◌*◌, ◌^◌, ◌-◌, true, min, take, Ok, IfOk, IfSome, length, slice_index};
ghost use Rattle.std.specs.Char.{is_ascii_digit};
ghost use Rattle.std.specs.List.{prefix_len};
ghost use Rattle.al_lex.specs.Numbers.{based_len, base_value, digit_value, digits_of, exponent_len, exponent_of, exponent_start, goes_on, is_below, is_digit, is_well_formed, number, number_at, number_len, number_value, numeral_len, numeral_value, parts_of, runs_on, value_of, with_byte, with_hashes, with_start};

use crate::token::{Kind, LexCode, Piece, Sort};
use al_base::is_word_byte;

/// The largest value of a number.
const LARGEST: u64 = i64::MAX as u64;

/// Numbers of so many decimal digits are never too large.
const FEW_DIGITS: usize = 18;

/// Which digits a numeral may have.
#[derive(Clone, Copy)]
pub(crate) enum Digits {
    Decimal,
    Hexadecimal,
}

/// How long the parts of a number are.
#[derive(Clone, Copy)]
pub(crate) struct Parts {
    /// The numeral that comes first, which is the base if the number has one.
    pub(crate) numeral: usize,
    /// The digits between the `#`, 0 if there are none.
    pub(crate) based: usize,
    /// What comes before the digits of the exponent: `E` and perhaps `+`.
    pub(crate) start: usize,
    /// The digits of the exponent, 0 if there is none.
    pub(crate) exponent: usize,
}

/// The byte there, or 0 after the end.
#[inline(always)]
fn byte_at(bytes: &[u8], i: usize) -> u8
    ensures { result ≡ slice_index bytes.now i }
{
    if i < bytes.len() { bytes[i] } else { 0 }
}

#[inline(always)]
fn is_digit(digits: Digits, b: u8) -> bool
    ensures { result ≡ is_digit digits b }
{
    match digits {
        Digits::Decimal => b.is_ascii_digit(),
        Digits::Hexadecimal => b.is_ascii_hexdigit(),
    }
}

/// Whether a byte, with `next` after it, goes on with a numeral.
#[inline(always)]
fn goes_on(digits: Digits, b: u8, next: u8) -> bool
    ensures { result ≡ goes_on digits b next }
{
    is_digit(digits, b) || (b == b'_' && is_digit(digits, next))
}

/// How long the longest numeral at the beginning is.
fn numeral_len(digits: Digits, bytes: &[u8]) -> usize
    ensures exact { result ≡ numeral_len digits bytes.now }
    ensures within { result ≤ length bytes.now }
{
    if !is_digit(digits, byte_at(bytes, 0)) {
        return 0;
    }
    let mut i = 0;
    while i < bytes.len() {
        if !goes_on(digits, bytes[i], byte_at(bytes, i + 1)) {
            return i;
        }
        i += 1;
    }
    i
}

fn based_len(bytes: &[u8]) -> usize
    ensures exact { result ≡ based_len bytes.now }
    ensures within { with_hashes result ≤ length bytes.now }
{
    let [b'#', rest @ ..] = bytes else {
        return 0;
    };
    let len = numeral_len(Digits::Hexadecimal, rest);
    if byte_at(rest, len) == b'#' { len } else { 0 }
}

fn exponent_start(bytes: &[u8]) -> usize
    ensures { result ≡ exponent_start bytes.now }
{
    if byte_at(bytes, 1) == b'+' { 2 } else { 1 }
}

fn exponent_len(bytes: &[u8]) -> usize
    ensures exact { result ≡ exponent_len bytes.now }
    ensures within { with_start (exponent_start bytes.now) result ≤ length bytes.now }
{
    match bytes {
        [b'E' | b'e', b'+', rest @ ..] => numeral_len(Digits::Decimal, rest),
        [b'E' | b'e', rest @ ..] => numeral_len(Digits::Decimal, rest),
        _ => 0,
    }
}

fn with_hashes(len: usize) -> usize
    requires { len + 2 < 2 ^ 64 }
    ensures { result ≡ with_hashes len }
{
    if len == 0 { 0 } else { len + 2 }
}

fn number_len(parts: Parts) -> usize
    requires { number_len parts < 2 ^ 64 }
    ensures { result ≡ number_len parts }
{
    let exponent = if parts.exponent == 0 {
        0
    } else {
        parts.start + parts.exponent
    };
    parts.numeral + with_hashes(parts.based) + exponent
}

/// The parts of the longest number at the beginning.
#[tactic(auto, unfolding(crate::specs::Numbers::parts_of))]
fn parts_of(bytes: &[u8]) -> Parts
    ensures exact { result ≡ parts_of bytes.now }
    ensures within { number_len result ≤ length bytes.now }
{
    let numeral = numeral_len(Digits::Decimal, bytes);
    let (_, rest) = bytes.split_at(numeral);
    let based = based_len(rest);
    let (_, after) = bytes.split_at(numeral + with_hashes(based));
    let start = exponent_start(after);
    let exponent = exponent_len(after);
    Parts {
        numeral,
        based,
        start,
        exponent,
    }
}

#[inline(always)]
fn digit_value(b: u8) -> u8
    ensures { result ≡ digit_value b }
{
    match b {
        b'0'..=b'9' => b - b'0',
        b'A'..=b'F' => b - b'A' + 10,
        b'a'..=b'f' => b - b'a' + 10,
        _ => 0,
    }
}

/// The value of a numeral with one byte more, a digit or an underscore; the largest `u64` stands for all above it.
#[inline(always)]
fn with_byte(base: u64, value: u64, b: u8) -> u64
    ensures { result ≡ min (with_byte base value b) (2 ^ 64 - 1) }
{
    if b == b'_' {
        return value;
    }
    value
        .saturating_mul(base)
        .saturating_add(u64::from(digit_value(b)))
}

/// The value of a numeral; the largest `u64` stands for all above it.
fn numeral_value(base: u64, text: &[u8]) -> u64
    requires { 0 < base }
    ensures { result ≡ min (numeral_value base 0 text.now) (2 ^ 64 - 1) }
{
    let mut value: u64 = 0;
    for b in text {
        value = with_byte(base, value, *b);
    }
    value
}

fn base_value(parts: Parts, bytes: &[u8]) -> u64
    requires { number_len parts ≤ length bytes.now }
    ensures { result ≡ min (base_value parts bytes.now) (2 ^ 64 - 1) }
{
    let (numeral, _) = bytes.split_at(parts.numeral);
    if parts.based == 0 {
        10
    } else {
        numeral_value(10, numeral)
    }
}

/// The digits of the number without its base and exponent.
fn digits_of(parts: Parts, bytes: &[u8]) -> &[u8]
    requires { number_len parts ≤ length bytes.now }
    ensures { result.now ≡ digits_of parts bytes.now }
{
    let (numeral, rest) = bytes.split_at(parts.numeral);
    if parts.based == 0 {
        return numeral;
    }
    let (_, rest) = rest.split_at(1);
    let (based, _) = rest.split_at(parts.based);
    based
}

fn exponent_of(parts: Parts, bytes: &[u8]) -> &[u8]
    requires { number_len parts ≤ length bytes.now }
    ensures { result.now ≡ exponent_of parts bytes.now }
{
    if parts.exponent == 0 {
        return &[];
    }
    let (_, rest) = bytes.split_at(parts.numeral + with_hashes(parts.based) + parts.start);
    let (exponent, _) = rest.split_at(parts.exponent);
    exponent
}

fn is_below(base: u64, text: &[u8]) -> bool
    ensures { result ≡ is_below base text.now }
{
    text.iter()
        .all(|b| *b == b'_' || u64::from(digit_value(*b)) < base)
}

fn runs_on(bytes: &[u8]) -> bool
    ensures { result ≡ runs_on bytes.now }
{
    let b = byte_at(bytes, 0);
    is_word_byte(b) || b == b'#' || (b == b'.' && byte_at(bytes, 1).is_ascii_digit())
}

fn is_well_formed(parts: Parts, bytes: &[u8]) -> bool
    requires { number_len parts ≤ length bytes.now }
    ensures { result ≡ is_well_formed parts bytes.now }
{
    let base = base_value(parts, bytes);
    let (_, after) = bytes.split_at(number_len(parts));
    (2..=16).contains(&base) && is_below(base, digits_of(parts, bytes)) && !runs_on(after)
}

/// `mantissa` times `base` to the `exponent`; the largest `u64` stands for all above it.
fn scaled(mantissa: u64, base: u64, exponent: u64) -> u64
    requires { 2 ≤ base }
    ensures { result ≡ min (mantissa * base ^ exponent) (2 ^ 64 - 1) }
{
    mantissa.saturating_mul(base.saturating_pow(exponent.min(64) as u32))
}

#[tactic(auto, unfolding(crate::specs::Numbers::value_of))]
/// The value of a number that is well formed; the largest `u64` stands for all above it.
fn value_of(parts: Parts, bytes: &[u8]) -> u64
    requires within { number_len parts ≤ length bytes.now }
    requires base { 2 ≤ base_value parts bytes.now }
    requires small { base_value parts bytes.now ≤ 16 }
    ensures { result ≡ min (value_of parts bytes.now) (2 ^ 64 - 1) }
{
    let base = base_value(parts, bytes);
    let mantissa = numeral_value(base, digits_of(parts, bytes));
    let exponent = numeral_value(10, exponent_of(parts, bytes));
    scaled(mantissa, base, exponent)
}

#[tactic(auto, unfolding(crate::specs::Numbers::number_at))]
fn number_at(parts: Parts, bytes: &[u8]) -> Result<u64, LexCode>
    requires { number_len parts ≤ length bytes.now }
    ensures { result ≡ number_at parts bytes.now }
{
    if !is_well_formed(parts, bytes) {
        return Err(LexCode::BadNumber);
    }
    let value = value_of(parts, bytes);
    if value <= LARGEST {
        Ok(value)
    } else {
        Err(LexCode::NumberTooLarge)
    }
}

/// How many digits come first.
fn digit_count(bytes: &[u8]) -> usize
    ensures exact { result ≡ prefix_len is_ascii_digit bytes.now }
    ensures within { result ≤ length bytes.now }
{
    bytes.iter().take_while(|b| b.is_ascii_digit()).count()
}

/// The length of the number at the beginning, if it has few digits and nothing else: its parts need no test.
fn plain_len(bytes: &[u8]) -> Option<usize>
    ensures len { IfSome result (λ n. number_len (parts_of bytes.now) ≡ n) }
    ensures value { IfSome result (λ n. number_at (parts_of bytes.now) bytes.now ≡ Ok (numeral_value 10 0 (take n bytes.now))) }
    ensures small { IfSome result (λ n. numeral_value 10 0 (take n bytes.now) < 2 ^ 63) }
    ensures within { IfSome result (λ n. n ≤ length bytes.now) }
{
    let len = digit_count(bytes);
    let (_, after) = bytes.split_at(len);
    if len <= FEW_DIGITS && !runs_on(after) {
        Some(len)
    } else {
        None
    }
}

/// The number at the beginning of a source that begins with a digit.
#[tactic(auto, unfolding(crate::specs::Numbers::number))]
pub(crate) fn number(bytes: &[u8]) -> Result<Piece, LexCode>
    requires { is_ascii_digit (slice_index bytes.now 0) ≡ true }
    ensures exact { result ≡ number bytes.now }
    ensures within { IfOk result (λ q. q.len ≤ length bytes.now) }
    ensures some { IfOk result (λ q. 0 < q.len) }
{
    if let Some(len) = plain_len(bytes) {
        return Ok(Piece {
            sort: Sort::Lexeme(Kind::Number),
            len,
        });
    }
    let parts = parts_of(bytes);
    match number_at(parts, bytes) {
        Ok(_) => Ok(Piece {
            sort: Sort::Lexeme(Kind::Number),
            len: number_len(parts),
        }),
        Err(code) => Err(code),
    }
}

/// The value of a number's spelling, from 0 to 2^63-1; `None` if the spelling begins with no such number (ARM 2.4).
#[tactic(auto, unfolding(crate::specs::Numbers::number_value))]
pub fn number_value(text: &[u8]) -> Option<u64>
    ensures { result ≡ number_value text.now }
{
    if let Some(len) = plain_len(text) {
        let (digits, _) = text.split_at(len);
        return Some(numeral_value(10, digits));
    }
    number_at(parts_of(text), text).ok()
}
