//! The lexer: cuts a text into pieces, which are white space, comments and tokens.

ghost use Rattle.std.specs.Prelude.{◌≡◌, ◌<◌, ◌≤◌, ◌+◌, ◌^◌, ℕ, eqb, if◌then◌else◌, length, take, slice_index, IfOk, IfSome, IfNone, IsTrue, true, false};
ghost use Rattle.std.specs.List.{list_all};
ghost use Rattle.click_text.specs.kept.SingleBytePieces.{mark_of};
ghost use Rattle.click_text.specs.Pieces.{white, name_byte, word_byte, is_word, ends_comment, IsPiece, Longest, NoPiece, port_spelled, token_of, piece_fault, Reads};

use crate::strings::string_len;
use crate::syntax::{Ending, FaultKind, Span, TextFault, Token};
use click_base::all_digits;
use std::alloc::{AllocError, Global};

/// The kind of a piece.
#[derive(Clone, Copy, Debug, PartialEq, Eq)]
pub enum Piece {
    Blank,
    LineComment,
    BlockComment,
    Word,
    Number,
    Elementclass,
    Require,
    Formal,
    String,
    DoubleColon,
    Arrow,
    Semicolon,
    Comma,
    OpenBracket,
    CloseBracket,
    Open,
    Close,
    Bar,
}

impl Piece {
    /// Returns the token of a piece with these bytes and this span. White space and comments have
    /// none.
    fn token(self, bytes: &[u8], span: Span) -> Option<Token>
        ensures { result ≡ token_of self bytes.now span }
    {
        match self {
            Piece::Blank | Piece::LineComment | Piece::BlockComment => None,
            Piece::Word => Some(Token::Word(span)),
            Piece::Number => Some(Token::Number(port_number(bytes), span)),
            Piece::Elementclass => Some(Token::Elementclass(span)),
            Piece::Require => Some(Token::Require(span)),
            Piece::Formal => Some(Token::Formal(span)),
            Piece::String => Some(Token::String(span)),
            Piece::DoubleColon => Some(Token::DoubleColon(span)),
            Piece::Arrow => Some(Token::Arrow(span)),
            Piece::Semicolon => Some(Token::Semicolon(span)),
            Piece::Comma => Some(Token::Comma(span)),
            Piece::OpenBracket => Some(Token::OpenBracket(span)),
            Piece::CloseBracket => Some(Token::CloseBracket(span)),
            Piece::Open => Some(Token::Open(span)),
            Piece::Close => Some(Token::Close(span)),
            Piece::Bar => Some(Token::Bar(span)),
        }
    }
}

pub(crate) fn is_white(byte: u8) -> bool
    ensures { result ≡ white byte }
{
    byte == b' ' || (9 <= byte && byte <= 13)
}

fn is_name_byte(byte: u8) -> bool
    ensures { result ≡ name_byte byte }
{
    byte.is_ascii_alphanumeric() || byte == b'_'
}

fn is_word_byte(byte: u8) -> bool
    ensures { result ≡ word_byte byte }
{
    is_name_byte(byte) || byte == b'@'
}

/// Returns whether the byte at offset `at` exists and can be part of a word.
fn is_word_at(text: &[u8], at: usize) -> bool
    ensures byte { result ≡ word_byte (slice_index text.now at) }
    ensures within { IsTrue result → at < length text.now }
{
    at < text.len() && is_word_byte(text[at])
}

/// Returns the length of the longest word that begins the text.
fn word_len(text: &[u8]) -> usize
    requires some { 0 < length text.now }
    requires first { word_byte (slice_index text.now 0) ≡ true }
    ensures positive { 0 < result }
    ensures within { result ≤ length text.now }
    ensures word { is_word (take result text.now) ≡ true }
    ensures most { (m : ℕ) → result < m → m ≤ length text.now → is_word (take m text.now) ≡ false }
{
    let mut len = 1;
    while len < text.len() {
        if is_word_byte(text[len]) {
            len += 1;
        } else if text[len] == b'/' && is_word_at(text, len + 1) {
            len += 2;
        } else {
            return len;
        }
    }
    len
}

/// Returns the kind of a piece that has the form of a word: a number, a keyword or a word.
fn word_kind(word: &[u8]) -> Piece
    requires { is_word word.now ≡ true }
    ensures { IsPiece result word.now }
{
    if all_digits(word) {
        return Piece::Number;
    }
    if word == b"elementclass".as_slice() {
        return Piece::Elementclass;
    }
    if word == b"require".as_slice() {
        return Piece::Require;
    }
    Piece::Word
}

/// Returns the number of name bytes that begin the text.
fn name_len(text: &[u8]) -> usize
    ensures within { result ≤ length text.now }
    ensures all { list_all name_byte (take result text.now) ≡ true }
    ensures most { result < length text.now → name_byte (slice_index text.now result) ≡ false }
{
    for (i, byte) in text.iter().enumerate() {
        if !is_name_byte(*byte) {
            return i;
        }
    }
    text.len()
}

/// Returns the number of bytes before the next LF, or before the end if there is none.
fn line_len(text: &[u8]) -> usize
    ensures within { result ≤ length text.now }
    ensures all { list_all (λ b. if eqb b 10 then false else true) (take result text.now) ≡ true }
    ensures most { result < length text.now → slice_index text.now result ≡ 10 }
{
    for (i, byte) in text.iter().enumerate() {
        if *byte == b'\n' {
            return i;
        }
    }
    text.len()
}

/// Returns the number of bytes up to and including the next `*/`, if there is one.
fn comment_len(text: &[u8]) -> Option<usize>
    ensures within { IfSome result (λ len. len ≤ length text.now) }
    ensures ends { IfSome result (λ len. ends_comment (take len text.now) ≡ true) }
    ensures never { IfNone result ((n : ℕ) → n ≤ length text.now → ends_comment (take n text.now) ≡ false) }
{
    for i in 1..text.len() {
        if text[i - 1] == b'*' && text[i] == b'/' {
            return Some(i + 1);
        }
    }
    None
}

/// Returns the port number that the digits spell, or `None` above 255.
fn port_number(digits: &[u8]) -> Option<u8>
    ensures { result ≡ port_spelled digits.now }
{
    let mut number: u16 = 0;
    for digit in digits {
        number = 10 * number + u16::from(digit.saturating_sub(b'0'));
        // More digits cannot make the number smaller.
        if number > 255 {
            return None;
        }
    }
    Some(number as u8)
}

/// Returns the piece that consists of this byte alone, white space excepted.
fn mark(byte: u8) -> Option<Piece>
    ensures { result ≡ mark_of byte }
{
    match byte {
        b';' => Some(Piece::Semicolon),
        b',' => Some(Piece::Comma),
        b'[' => Some(Piece::OpenBracket),
        b']' => Some(Piece::CloseBracket),
        b'{' => Some(Piece::Open),
        b'}' => Some(Piece::Close),
        b'|' => Some(Piece::Bar),
        _ => None,
    }
}

/// Returns the kind and length of the comment that begins a text. The text begins with `/`.
pub(crate) fn comment(text: &[u8]) -> Option<(Piece, usize)>
    requires some { 0 < length text.now }
    requires first { slice_index text.now 0 ≡ 47 }
    ensures some { IfSome result (λ found. Longest text.now found.0 found.1) }
    ensures none { IfNone result (NoPiece text.now) }
    ensures progress { IfSome result (λ found. 0 < found.1) }
{
    if text.len() < 2 {
        return None;
    }
    if text[1] == b'/' {
        return Some((Piece::LineComment, 2 + line_len(&text[2..])));
    }
    if text[1] == b'*' {
        let len = comment_len(&text[2..])?;
        return Some((Piece::BlockComment, 2 + len));
    }
    None
}

/// Returns the kind and length of the parameter that begins a text. The text begins with `$`.
fn formal(text: &[u8]) -> Option<(Piece, usize)>
    requires some { 0 < length text.now }
    requires first { slice_index text.now 0 ≡ 36 }
    ensures some { IfSome result (λ found. Longest text.now found.0 found.1) }
    ensures none { IfNone result (NoPiece text.now) }
    ensures progress { IfSome result (λ found. 0 < found.1) }
{
    let len = name_len(&text[1..]);
    if len == 0 {
        return None;
    }
    Some((Piece::Formal, 1 + len))
}

/// Returns the kind and length of the configuration string that begins a text. The text begins with
/// `(`.
fn string(text: &[u8]) -> Option<(Piece, usize)>
    requires some { 0 < length text.now }
    requires first { slice_index text.now 0 ≡ 40 }
    ensures some { IfSome result (λ found. Longest text.now found.0 found.1) }
    ensures none { IfNone result (NoPiece text.now) }
    ensures progress { IfSome result (λ found. 0 < found.1) }
{
    let len = string_len(&text[1..])?;
    Some((Piece::String, 1 + len))
}

/// Returns the kind and length of the `::` that begins a text. The text begins with `:`.
fn double_colon(text: &[u8]) -> Option<(Piece, usize)>
    requires some { 0 < length text.now }
    requires first { slice_index text.now 0 ≡ 58 }
    ensures some { IfSome result (λ found. Longest text.now found.0 found.1) }
    ensures none { IfNone result (NoPiece text.now) }
    ensures progress { IfSome result (λ found. 0 < found.1) }
{
    if text.len() > 1 && text[1] == b':' {
        return Some((Piece::DoubleColon, 2));
    }
    None
}

/// Returns the kind and length of the `->` that begins a text. The text begins with `-`.
fn arrow(text: &[u8]) -> Option<(Piece, usize)>
    requires some { 0 < length text.now }
    requires first { slice_index text.now 0 ≡ 45 }
    ensures some { IfSome result (λ found. Longest text.now found.0 found.1) }
    ensures none { IfNone result (NoPiece text.now) }
    ensures progress { IfSome result (λ found. 0 < found.1) }
{
    if text.len() > 1 && text[1] == b'>' {
        return Some((Piece::Arrow, 2));
    }
    None
}

/// Returns the kind and length of the longest piece that begins a text, or `None` if none does.
fn first_piece(text: &[u8]) -> Option<(Piece, usize)>
    requires { 0 < length text.now }
    ensures some { IfSome result (λ found. Longest text.now found.0 found.1) }
    ensures none { IfNone result (NoPiece text.now) }
    ensures progress { IfSome result (λ found. 0 < found.1) }
{
    let byte = text[0];
    if is_white(byte) {
        return Some((Piece::Blank, 1));
    }
    if is_word_byte(byte) {
        let len = word_len(text);
        return Some((word_kind(&text[..len]), len));
    }
    if let Some(piece) = mark(byte) {
        return Some((piece, 1));
    }
    match byte {
        b'/' => comment(text),
        b'$' => formal(text),
        b'(' => string(text),
        b':' => double_colon(text),
        b'-' => arrow(text),
        _ => None,
    }
}

/// Returns the fault at offset `at`, where these bytes follow and no piece begins.
fn piece_fault(at: usize, text: &[u8]) -> Ending
    requires some { 0 < length text.now }
    requires fits { at + length text.now < 2 ^ 64 }
    ensures { result ≡ piece_fault at text.now }
{
    let (kind, end) = if text.len() > 1 && text[0] == b'/' && text[1] == b'*' {
        (FaultKind::UnclosedComment, at + text.len())
    } else if text[0] == b'(' {
        (FaultKind::UnclosedString, at + text.len())
    } else {
        (FaultKind::BadByte, at + 1)
    };
    let span = Span { start: at, end };
    Ending::Stuck(TextFault { kind, span })
}

/// Returns the tokens of a text up to its end, or up to the first offset where no piece begins.
pub fn scan(alloc: Global, text: &[u8]) -> Result<(Vec<Token>, Ending), AllocError>
    ensures { IfOk result (λ r. Reads 0 text.now r.0.items r.1) }
{
    let mut tokens = Vec::new(alloc);
    let mut at = 0;
    'pieces: while at < text.len() {
        let rest = &text[at..];
        let Some((piece, len)) = first_piece(rest) else {
            return Ok((tokens, piece_fault(at, rest)));
        };
        let end = at + len;
        if let Some(token) = piece.token(&rest[..len], Span { start: at, end }) {
            tokens.push(token)?;
        }
        at = end;
    }
    Ok((tokens, Ending::Whole))
}
