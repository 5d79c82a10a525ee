//! Reads the token at the front of some bytes, where one begins there.

ghost use Rattle.std.specs.Prelude.{◌≡◌, ◌≢◌, ◌-◌, ◌^◌, ◌<◌, ◌≤◌, false, length, min, slice_index, IsFalse, IfSome, None, Some, true, IfNone, option_map};
ghost use Rattle.std.specs.List.{position_or_len};
ghost use Rattle.std.specs.Char.{digit_value, is_digit};
ghost use Rattle.fz_tree.specs.Token as bytes_spec;
ghost use Rattle.fz_tree.specs.Token.{is_word_start, Whole, Marked};
ghost use Rattle.fz_tree.specs.Lexing.{IsWithinLimit};
ghost use Rattle.fz_tree.specs.Scan as scan;
ghost use Rattle.fz_tree.specs.Found.{IsFrontOf, IsNumberFound};

use crate::token::{Mark, TokenKind};

/// The least and the greatest integer that is accepted.
const LEAST_WHOLE: i64 = i64::MIN;

const GREATEST_WHOLE: i64 = i64::MAX;

/// The greatest number that stays below 2^63 whatever digit is appended to it.
const GREATEST_SHORT: u64 = 922_337_203_685_477_579;

/// The byte at an index. Past the end it is 0, which continues no token's text.
#[inline]
fn byte_at(bytes: &[u8], place: usize) -> u8
    ensures { result ≡ slice_index bytes.now place }
{
    if place < bytes.len() { bytes[place] } else { 0 }
}

#[inline]
pub(crate) fn is_blank(byte: u8) -> bool
    ensures { result ≡ bytes_spec.is_blank byte }
{
    matches!(byte, b' ' | b'\t' | b'\r' | b'\n')
}

#[inline(always)]
pub(crate) fn is_word_start(byte: u8) -> bool
    ensures { result ≡ bytes_spec.is_word_start byte }
{
    byte.is_ascii_alphabetic() || byte == b'_'
}

/// The value of a letter or a digit as a digit, and 36 for every other byte.
#[inline]
fn digit_value(byte: u8) -> u8
    ensures { result ≡ digit_value byte }
{
    match byte {
        b'0'..=b'9' => byte - b'0',
        b'A'..=b'Z' => byte - b'A' + 10,
        b'a'..=b'z' => byte - b'a' + 10,
        _ => 36,
    }
}

#[inline]
fn is_digit(byte: u8, base: u8) -> bool
    ensures { result ≡ is_digit byte base }
{
    digit_value(byte) < base
}

/// How many digits are at the front, and the number that they write, or `u64::MAX` where it is
/// larger.
#[derive(Drop)]
struct DigitRun {
    len: usize,
    value: u64,
}

#[inline(always)]
fn digits(bytes: &[u8], base: u8) -> DigitRun
    ensures len { result.len ≡ scan.digits_len base bytes.now }
    ensures within { result.len ≤ length bytes.now }
    ensures value { result.value ≡ min (scan.leading_number base bytes.now) (2 ^ 64 - 1) }
{
    let mut len = 0;
    let mut value: u64 = 0;
    while len < bytes.len() && is_digit(bytes[len], base) {
        let digit = u64::from(digit_value(bytes[len]));
        value = value.saturating_mul(u64::from(base)).saturating_add(digit);
        len += 1;
    }
    DigitRun { len, value }
}

/// The length of a comment at the front: up to the end of its line.
pub(crate) fn comment_len(bytes: &[u8]) -> usize
    ensures value { result ≡ position_or_len bytes_spec.is_line_feed bytes.now }
    ensures within { result ≤ length bytes.now }
{
    let mut len = 0;
    while len < bytes.len() && bytes[len] != b'\n' {
        len += 1;
    }
    len
}

/// The length of a decimal point and digits at the front, or 0.
#[tactic(auto, unfolding(crate::specs::Scan::fraction_len))]
fn fraction_len(bytes: &[u8]) -> usize
    ensures value { result ≡ scan.fraction_len bytes.now }
    ensures within { result ≤ length bytes.now }
{
    if byte_at(bytes, 0) == b'.' && is_digit(byte_at(bytes, 1), 10) {
        1 + digits(&bytes[1..], 10).len
    } else {
        0
    }
}

/// The length of a sign at the front, or 0.
fn sign_len(bytes: &[u8]) -> usize
    ensures value { result ≡ scan.sign_len bytes.now }
    ensures within { result ≤ length bytes.now }
{
    match byte_at(bytes, 0) {
        b'+' | b'-' => 1,
        _ => 0,
    }
}

/// The length of an optional sign and digits at the front, or 0.
#[tactic(auto, unfolding(crate::specs::Scan::signed_digits_len))]
fn signed_digits_len(bytes: &[u8]) -> usize
    ensures value { result ≡ scan.signed_digits_len bytes.now }
    ensures within { result ≤ length bytes.now }
{
    let sign_len = sign_len(bytes);
    if is_digit(byte_at(bytes, sign_len), 10) {
        sign_len + digits(&bytes[sign_len..], 10).len
    } else {
        0
    }
}

/// The length of an exponent at the front, or 0.
#[tactic(auto, unfolding(crate::specs::Scan::exponent_len))]
fn exponent_len(bytes: &[u8]) -> usize
    ensures value { result ≡ scan.exponent_len bytes.now }
    ensures within { result ≤ length bytes.now }
{
    match byte_at(bytes, 0) {
        b'e' | b'E' => match signed_digits_len(&bytes[1..]) {
            0 => 0,
            len => 1 + len,
        },
        _ => 0,
    }
}

/// A number without a sign: its magnitude where it is an integer, or `u64::MAX` where that is
/// larger.
#[derive(Drop)]
struct NumberFront {
    magnitude: Option<u64>,
    len: usize,
}

/// Whether `0`, the letter and a digit of the base are at the front.
fn is_based(bytes: &[u8], letter: u8, base: u8) -> bool
    ensures { result ≡ scan.is_based letter base bytes.now }
{
    byte_at(bytes, 0) == b'0' && byte_at(bytes, 1) == letter && is_digit(byte_at(bytes, 2), base)
}

fn based_number(bytes: &[u8], base: u8) -> NumberFront
    requires { 2 ≤ length bytes.now }
    ensures len { result.len ≡ (scan.based_number base bytes.now).len }
    ensures within { result.len ≤ length bytes.now }
    ensures magnitude { result.magnitude
        ≡ option_map (λ n. min n (2 ^ 64 - 1)) (scan.based_number base bytes.now).natural }
{
    let digits = digits(&bytes[2..], base);
    NumberFront {
        magnitude: Some(digits.value),
        len: 2 + digits.len,
    }
}

#[tactic(auto, unfolding(crate::specs::Scan::number_front))]
fn number_front(bytes: &[u8]) -> NumberFront
    ensures len { result.len ≡ (scan.number_front bytes.now).len }
    ensures within { result.len ≤ length bytes.now }
    ensures magnitude { result.magnitude
        ≡ option_map (λ n. min n (2 ^ 64 - 1)) (scan.number_front bytes.now).natural }
{
    if is_based(bytes, b'x', 16) {
        return based_number(bytes, 16);
    }
    if is_based(bytes, b'o', 8) {
        return based_number(bytes, 8);
    }
    let whole = digits(bytes, 10);
    let point_len = fraction_len(&bytes[whole.len..]);
    let scale_len = exponent_len(&bytes[whole.len + point_len..]);
    if point_len + scale_len == 0 {
        NumberFront {
            magnitude: Some(whole.value),
            len: whole.len,
        }
    } else {
        NumberFront {
            magnitude: None,
            len: whole.len + point_len + scale_len,
        }
    }
}

/// The digits at the front and the number that they write, or none where it may reach 2^63. Nearly
/// all numbers are small enough, and this is faster than the general case.
#[inline(always)]
fn short_digits(bytes: &[u8]) -> Option<DigitRun>
    ensures len { IfSome result (λ run. run.len ≡ scan.digits_len 10 bytes.now) }
    ensures within { IfSome result (λ run. run.len ≤ length bytes.now) }
    ensures value { IfSome result (λ run. run.value ≡ scan.leading_number 10 bytes.now) }
    ensures small { IfSome result (λ run. run.value < 2 ^ 63) }
{
    let mut len = 0;
    let mut value: u64 = 0;
    while len < bytes.len() {
        // For every byte but a digit this is 10 or more.
        let digit = bytes[len].wrapping_sub(b'0');
        if digit > 9 {
            break;
        }
        if value > GREATEST_SHORT {
            return None;
        }
        value = value * 10 + u64::from(digit);
        len += 1;
    }
    Some(DigitRun { len, value })
}

/// Whether a number may go on with the byte after its first digits: a decimal point, an exponent,
/// or the letter of a base.
#[inline(always)]
fn may_go_on(byte: u8) -> bool
    ensures { IsFalse result → (byte ≢ 46) × (byte ≢ 101) × (byte ≢ 69) × (byte ≢ 120)
        × (byte ≢ 111) }
{
    matches!(byte, b'.' | b'e' | b'E' | b'x' | b'o')
}

/// An integer without a sign that is small, where its decimal digits and the byte after them show
/// that it is one.
#[inline(always)]
#[tactic(auto, using(crate::proofs::Short::short_is))]
fn short_number(bytes: &[u8]) -> Option<DigitRun>
    ensures is { IfSome result (λ run. scan.number_front bytes.now
        ≡ record { natural = Some run.value; len = run.len }) }
    ensures within { IfSome result (λ run. run.len ≤ length bytes.now) }
    ensures some { IfSome result (λ run. 0 < run.len
        → is_digit (slice_index bytes.now 0) 10 ≡ true) }
    ensures small { IfSome result (λ run. run.value < 2 ^ 63) }
{
    match short_digits(bytes) {
        Some(run) if !may_go_on(byte_at(bytes, run.len)) => Some(run),
        _ => None,
    }
}

/// The length of the rest of a string after its opening quote, where it is closed on its line.
fn string_rest_len(bytes: &[u8]) -> Option<usize>
    ensures value { result ≡ scan.string_rest_len bytes.now }
    ensures within { IfSome result (λ n. n ≤ length bytes.now) }
{
    let mut len = 0;
    while len < bytes.len() {
        match bytes[len] {
            b'"' => return Some(len + 1),
            b'\n' => return None,
            b'\\' => {
                if byte_at(bytes, len + 1) == b'\n' {
                    return None;
                }
                len += 2;
            }
            _ => len += 1,
        }
    }
    None
}

/// The mark at the front and its length.
#[tactic(auto, unfolding(crate::specs::Scan::mark_front, crate::specs::Scan::front_of))]
#[inline(always)]
pub(crate) fn mark_front(bytes: &[u8]) -> Option<(Mark, usize)>
    ensures mark { result ≡ scan.mark_front bytes.now }
    ensures front { IfSome result (λ m. scan.front_of bytes.now ≡ scan.found (Marked m.0) m.1) }
{
    match byte_at(bytes, 0) {
        b'(' => Some((Mark::OpenParen, 1)),
        b')' => Some((Mark::CloseParen, 1)),
        b'[' => Some((Mark::OpenBracket, 1)),
        b']' => Some((Mark::CloseBracket, 1)),
        b'{' => Some((Mark::OpenBrace, 1)),
        b'}' => Some((Mark::CloseBrace, 1)),
        b',' => Some((Mark::Comma, 1)),
        b';' => Some((Mark::Semicolon, 1)),
        b':' if byte_at(bytes, 1) == b':' => Some((Mark::ColonColon, 2)),
        b':' => Some((Mark::Colon, 1)),
        b'=' => Some((Mark::Equals, 1)),
        b'.' if byte_at(bytes, 1) == b'.' => Some((Mark::DotDot, 2)),
        _ => None,
    }
}

/// The integer with a sign and a magnitude, where it is within the limit.
fn whole_number(negative: bool, magnitude: u64) -> Option<i64>
    ensures within { IfSome result (λ z. (z ≡ scan.signed negative magnitude) × IsWithinLimit z) }
    ensures outside { IfNone result (¬ (IsWithinLimit (scan.signed negative magnitude))) }
{
    let value = if negative {
        -i128::from(magnitude)
    } else {
        i128::from(magnitude)
    };
    if value < i128::from(LEAST_WHOLE) || value > i128::from(GREATEST_WHOLE) {
        return None;
    }
    Some(value as i64)
}

/// What is at the front of some bytes: a token with the length of its text, an integer outside the
/// limit with that length, or nothing.
#[derive(Drop)]
pub(crate) enum Front {
    Found(TokenKind, usize),
    OutsideLimit(usize),
    Nothing,
}

fn number_found(negative: bool, len: usize, magnitude: Option<u64>) -> Front
    ensures { IsNumberFound negative len magnitude result }
{
    match magnitude {
        None => Front::Found(TokenKind::FloatText, len),
        Some(magnitude) => match whole_number(negative, magnitude) {
            Some(value) => Front::Found(TokenKind::Whole(value), len),
            None => Front::OutsideLimit(len),
        },
    }
}

/// An integer within the limit and the length of its text.
#[derive(Drop)]
pub(crate) struct WholeFront {
    pub(crate) value: i64,
    pub(crate) len: usize,
}

/// The integer at the front, where one is there and is a short one.
#[inline(always)]
pub(crate) fn short_whole(bytes: &[u8]) -> Option<WholeFront>
    ensures { IfSome result (λ w. (scan.front_of bytes.now ≡ scan.found (Whole w.value) w.len)
        × IsWithinLimit w.value) }
{
    match byte_at(bytes, 0) {
        b'0'..=b'9' => match short_number(bytes) {
            Some(run) => Some(WholeFront {
                value: run.value as i64,
                len: run.len,
            }),
            None => None,
        },
        b'-' => match short_number(&bytes[1..]) {
            Some(run) if run.len > 0 => Some(WholeFront {
                value: -(run.value as i64),
                len: 1 + run.len,
            }),
            _ => None,
        },
        _ => None,
    }
}

/// What is at the front, where that is no word and no mark.
#[tactic(auto, unfolding(crate::specs::Scan::front_of))]
pub(crate) fn read_other_front(bytes: &[u8]) -> Front
    requires no_word { is_word_start (slice_index bytes.now 0) ≡ false }
    requires no_mark { scan.mark_front bytes.now ≡ None }
    ensures { IsFrontOf bytes.now result }
{
    match byte_at(bytes, 0) {
        b'0'..=b'9' => {
            let number = number_front(bytes);
            number_found(false, number.len, number.magnitude)
        }
        b'-' if is_digit(byte_at(bytes, 1), 10) => {
            let number = number_front(&bytes[1..]);
            number_found(true, 1 + number.len, number.magnitude)
        }
        b'"' => match string_rest_len(&bytes[1..]) {
            Some(len) => Front::Found(TokenKind::Str, 1 + len),
            None => Front::Nothing,
        },
        _ => Front::Nothing,
    }
}
