ghost use Rattle.std.specs.Prelude.{◌≡◌, ℕ, ◌<◌, ◌≤◌, true, false, List, drop, Decides, MatchOption};
ghost use Rattle.std.specs.List.{prefix_len};
ghost use Rattle.std.specs.Char.{is_ascii_alphanumeric};
ghost use Rattle.std.specs.Str.{all_ascii_digits};
ghost use Rattle.reader.specs.Text.{Numeral, value as written};
ghost use Rattle.reader.specs.Lexing.{NumberTold, RegisterTold, WordTold, TokenTold, width as width_of, digit_first, Sorted, Run, Stands, MarkTold, is_blank, TokenRead};

use crate::limits::{HIGHEST_REGISTER, LARGEST_NUMBER};
use crate::types::{Lexeme, Placed, Refusal, Token};

// How many blanks stand first.
fn blanks(text: &[u8]) -> usize
    ensures { result ≡ prefix_len is_blank text.now }
{
    text.iter()
        .take_while(|b| **b == b' ' || **b == b'\n')
        .count()
}

// How many letters and digits stand first.
pub(crate) fn word_length(text: &[u8]) -> usize
    ensures { result ≡ prefix_len is_ascii_alphanumeric text.now }
{
    text.iter()
        .take_while(|b| b.is_ascii_alphanumeric())
        .count()
}

fn all_digits(word: &[u8]) -> bool
    ensures { result ≡ all_ascii_digits word.now }
{
    word.iter().all(|d| d.is_ascii_digit())
}

// Whether the word is 0, or a digit 1 to 9 followed by any digits.
fn is_numeral(word: &[u8]) -> bool
    ensures { Decides result (Numeral word.now) }
{
    match word {
        [] => false,
        [b'0', rest @ ..] => rest.is_empty(),
        _ => all_digits(word),
    }
}

// The number that the digits write, unless it is above 999,999. `parse` takes a `str`, and its answer would need the test of
// that limit too.
fn value(digits: &[u8]) -> Option<u32>
    requires { all_ascii_digits digits.now ≡ true }
    ensures { MatchOption result (999999 < written digits.now) (λ n. (n ≡ written digits.now) × (n ≤ 999999)) }
{
    let mut value: u32 = 0;
    for d in digits {
        if value > LARGEST_NUMBER / 10 {
            return None;
        }
        value = 10 * value + u32::from(*d - b'0');
    }
    Some(value)
}

// The number that the word writes.
fn number(word: &[u8]) -> Result<u32, Refusal>
    ensures { NumberTold word.now result }
{
    if !is_numeral(word) {
        return Err(Refusal::StrangeWord);
    }
    value(word).ok_or(Refusal::TooBig)
}

// The register that the word names: an `x` and a number.
fn register(word: &[u8]) -> Result<Lexeme, Refusal>
    ensures { RegisterTold word.now result }
{
    let [b'x', digits @ ..] = word else {
        return Err(Refusal::StrangeWord);
    };
    // `usize::from` takes no `u32`.
    let i = number(digits)? as usize;
    if i <= HIGHEST_REGISTER {
        Ok(Lexeme::Register(i))
    } else {
        Err(Refusal::TooBig)
    }
}

// What a word says that does not begin with a digit. A `match` on the words would leave sixteen ways into its last arm to prove.
fn word_lexeme(word: &[u8]) -> Result<Lexeme, Refusal>
    requires { digit_first word.now ≡ false }
    ensures { WordTold word.now result }
{
    if word == b"LOOP".as_slice() {
        Ok(Lexeme::Loop)
    } else if word == b"WHILE".as_slice() {
        Ok(Lexeme::While)
    } else if word == b"DO".as_slice() {
        Ok(Lexeme::Do)
    } else if word == b"END".as_slice() {
        Ok(Lexeme::End)
    } else {
        register(word)
    }
}

// What a word says that begins with a digit.
fn number_lexeme(word: &[u8]) -> Result<Lexeme, Refusal>
    requires { digit_first word.now ≡ true }
    ensures { WordTold word.now result }
{
    let n = number(word)?;
    Ok(Lexeme::Number(n))
}

// What a token says.
pub(crate) fn token_lexeme(token: Token) -> Result<Lexeme, Refusal>
    requires { Sorted token }
    ensures { TokenTold token.entry result }
{
    match token {
        Token::Word(word) => word_lexeme(word),
        Token::Number(word) => number_lexeme(word),
        Token::Assign => Ok(Lexeme::Assign),
        Token::Unequal => Ok(Lexeme::Unequal),
        Token::Plus => Ok(Lexeme::Plus),
        Token::Minus => Ok(Lexeme::Minus),
        Token::Semicolon => Ok(Lexeme::Semicolon),
    }
}

// How many bytes a token takes.
pub(crate) fn width(token: Token) -> usize
    ensures { result ≡ width_of token.entry }
{
    match token {
        Token::Word(word) | Token::Number(word) => word.len(),
        Token::Assign | Token::Unequal => 2,
        Token::Plus | Token::Minus | Token::Semicolon => 1,
    }
}

// The mark that stands first.
fn mark(text: &[u8]) -> Option<Token<'static>>
    ensures { MarkTold text.now result }
{
    let [first, rest @ ..] = text else {
        return None;
    };
    match (char::from(*first), rest) {
        (';', _) => Some(Token::Semicolon),
        ('+', _) => Some(Token::Plus),
        ('-', _) => Some(Token::Minus),
        (':', [b'=', ..]) => Some(Token::Assign),
        ('!', [b'=', ..]) => Some(Token::Unequal),
        _ => None,
    }
}

// The token of a word, which is a number where it begins with a digit.
fn word_token<'a>(word: &'a [u8]) -> Token<'a>
    ensures sorted { Sorted result }
    ensures stands { (bs : List ℕ) → Run bs word.now → Stands bs result }
{
    match word {
        [b'0'..=b'9', ..] => Token::Number(word),
        _ => Token::Word(word),
    }
}

// What stands from `from` on; nothing past the end.
fn tail(text: &[u8], from: usize) -> &[u8]
    ensures { result.now ≡ drop from text.now }
{
    text.get(from..).unwrap_or(&[])
}

// The first token from `from` on; none at the text's end.
pub(crate) fn next_token<'a>(
    text: &'a [u8],
    from: usize,
) -> Result<Option<Placed<Token<'a>>>, Placed<Refusal>>
    ensures { TokenRead text.now from result }
{
    let place = from + blanks(tail(text, from));
    if place >= text.len() {
        return Ok(None);
    }
    let rest = &text[place..];
    let length = word_length(rest);
    if length > 0 {
        let item = word_token(&rest[..length]);
        return Ok(Some(Placed { place, item }));
    }
    let item = mark(rest).ok_or(Placed {
        place,
        item: Refusal::StrayByte,
    })?;
    Ok(Some(Placed { place, item }))
}
