//! The lexer: cuts a text into tokens.

ghost use Rattle.std.specs.Prelude.{◌≡◌, ◌<◌, ◌≤◌, List, length, take, IfOk, IfErr, IfSome};
ghost use Rattle.click_patterns.specs.declared.token.Token.{Token};
ghost use Rattle.click_patterns.specs.Tokens.{white, word_byte, word, two, one, mark, piece, AreTokens};

use crate::token::{Join, Token};
use crate::values::token_of;
use click_filter::Relation;
use std::alloc::{AllocError, AllocFailed, Global};

/// Why a text is not accepted.
#[derive(Clone, Copy, Debug, PartialEq, Eq)]
pub enum PatternError {
    /// The text is no pattern, or no argument of IPFilter.
    Bad,
    NoMemory,
}

impl From<AllocError> for PatternError {
    ghost use Rattle.click_patterns.specs.declared.lexer.PatternError.TheVariants.{NoMemory};

    ghost from_gives = { λ _ e. e ≡ NoMemory };

    fn from(_: AllocError) -> Self {
        PatternError::NoMemory
    }
}

impl<T: Drop> From<AllocFailed<T>> for PatternError {
    ghost use Rattle.click_patterns.specs.declared.lexer.PatternError.TheVariants.{NoMemory};

    ghost from_gives = { λ _ e. e ≡ NoMemory };

    fn from(_: AllocFailed<T>) -> Self {
        PatternError::NoMemory
    }
}

/// Returns whether the byte is white space.
pub fn is_white(byte: u8) -> bool
    ensures { result ≡ white byte }
{
    byte == 32 || (9 <= byte && byte <= 13)
}

/// Returns whether the byte can be part of a word.
fn is_word_byte(byte: u8) -> bool
    ensures { result ≡ word_byte byte }
{
    byte.is_ascii_alphanumeric() || (45 <= byte && byte <= 47)
}

/// Returns the length of the word with which a text begins.
pub fn word_len(text: &[u8]) -> usize
    ensures within { result ≤ length text.now }
    ensures len { result ≡ length (word text.now) }
    ensures word { take result text.now ≡ word text.now }
{
    for (i, byte) in text.iter().enumerate() {
        if !is_word_byte(*byte) {
            return i;
        }
    }
    text.len()
}

/// Returns the token of two bytes.
fn two(first: u8, second: u8) -> Option<Token>
    ensures { result ≡ two first second }
{
    if first == b'&' && second == b'&' {
        Some(Token::Join(Join::And))
    } else if first == b'|' && second == b'|' {
        Some(Token::Join(Join::Or))
    } else if first == b'!' && second == b'=' {
        Some(Token::Relation(Relation::NotEqual))
    } else if first == b'=' && second == b'=' {
        Some(Token::Relation(Relation::Equal))
    } else if first == b'<' && second == b'=' {
        Some(Token::Relation(Relation::LessOrEqual))
    } else if first == b'>' && second == b'=' {
        Some(Token::Relation(Relation::GreaterOrEqual))
    } else {
        None
    }
}

/// Returns the token of one byte.
fn one(byte: u8) -> Option<Token>
    ensures { result ≡ one byte }
{
    match byte {
        b'(' => Some(Token::Open),
        b')' => Some(Token::Close),
        b'!' => Some(Token::Not),
        b'=' => Some(Token::Relation(Relation::Equal)),
        b'<' => Some(Token::Relation(Relation::Less)),
        b'>' => Some(Token::Relation(Relation::Greater)),
        _ => None,
    }
}

/// Returns the token other than a word with which a text begins, and its length.
fn mark(text: &[u8]) -> Option<(Option<Token>, usize)>
    requires { 0 < length text.now }
    ensures value { result ≡ mark text.now }
    ensures within { IfSome result (λ p. p.1 ≤ length text.now) }
    ensures positive { IfSome result (λ p. 0 < p.1) }
{
    if text.len() > 1 {
        if let Some(token) = two(text[0], text[1]) {
            return Some((Some(token), 2));
        }
    }
    match one(text[0]) {
        Some(token) => Some((Some(token), 1)),
        None => None,
    }
}

/// Returns what stands at the front of a text, and its length. White space is no token.
#[tactic(auto, unfolding(crate::specs::Tokens::piece))]
fn piece(text: &[u8]) -> Option<(Option<Token>, usize)>
    requires { 0 < length text.now }
    ensures value { result ≡ piece text.now }
    ensures within { IfSome result (λ p. p.1 ≤ length text.now) }
    ensures positive { IfSome result (λ p. 0 < p.1) }
{
    if is_white(text[0]) {
        return Some((None, 1));
    }
    if is_word_byte(text[0]) {
        let len = word_len(text);
        return Some((Some(token_of(&text[..len])), len));
    }
    mark(text)
}

/// Returns the tokens of a text.
pub fn scan(alloc: Global, text: &[u8]) -> Result<Vec<Token>, PatternError>
    ensures ok { IfOk result (λ ts. AreTokens text.now ts.items) }
    ensures err { IfErr result (λ e. e ≡ PatternError.Bad → (ts : List Token) → AreTokens text.now ts → ⊥) }
{
    let mut tokens = Vec::new(alloc);
    let mut rest = text;
    'pieces: while !rest.is_empty() {
        let Some((token, len)) = piece(rest) else {
            return Err(PatternError::Bad);
        };
        if let Some(token) = token {
            tokens.push(token)?;
        }
        rest = &rest[len..];
    }
    Ok(tokens)
}
