//! Numbers, addresses and prefixes.

ghost use Rattle.std.specs.Prelude.{◌≡◌, ◌≤◌, ◌<◌, ◌==◌, IfSome, length, position, None};
ghost use Rattle.click_patterns.specs.Values.{number, number_or, small_or, value, octet, first_octet, address, mask_of, prefix, token_of};

use crate::names::{icmp_type_named, keyword, port_named, protocol_named};
use crate::token::{Token, Value};
use click_base::{decimal_in, hexadecimal_in};

/// Returns the number that the bytes spell, if it is at most 65,535: decimal digits, or `0x` and
/// hexadecimal digits.
fn number(bytes: &[u8]) -> Option<u16>
    ensures { result ≡ number bytes.now }
{
    let number = if bytes.len() >= 2 && bytes[0] == b'0' && bytes[1] == b'x' {
        hexadecimal_in(&bytes[2..], 65535)?
    } else {
        decimal_in(bytes, 65535)?
    };
    Some(number as u16)
}

/// Returns the number, or else that of the name.
fn number_or(number: Option<u16>, named: Option<u16>) -> Option<u16>
    ensures { result ≡ number_or number named }
{
    match number {
        Some(number) => Some(number),
        None => named,
    }
}

/// Returns the number if it is at most 255, or else the number of the name.
fn small_or(number: Option<u16>, named: Option<u8>) -> Option<u8>
    ensures { result ≡ small_or number named }
{
    match number {
        Some(number) => {
            if number <= 255 {
                Some(number as u8)
            } else {
                None
            }
        }
        None => named,
    }
}

/// Returns what a word that is no keyword can stand for.
fn value(word: &[u8]) -> Value
    ensures { result ≡ value word.now }
{
    let number = number(word);
    Value {
        number,
        port: number_or(number, port_named(word)),
        protocol: small_or(number, protocol_named(word)),
        icmp_type: small_or(number, icmp_type_named(word)),
    }
}

/// Returns the number of one to three decimal digits, if it is at most 255.
fn octet(bytes: &[u8]) -> Option<u64>
    ensures value { result ≡ octet bytes.now }
    ensures small { IfSome result (λ n. n ≤ 255) }
{
    if bytes.len() <= 3 {
        decimal_in(bytes, 255)
    } else {
        None
    }
}

/// Returns the index of the first byte that equals `byte`.
fn place(bytes: &[u8], byte: u8) -> Option<usize>
    ensures value { result ≡ position (λ b. b == byte) bytes.now }
    ensures within { IfSome result (λ at. (at < length bytes.now) × (at < usize.MAX)) }
{
    bytes.iter().position(|b| *b == byte)
}

/// Returns the octet before the first `.`, and the index of that.
#[tactic(auto, unfolding(crate::specs::Values::first_octet))]
fn first_octet(bytes: &[u8]) -> Option<(u64, usize)>
    ensures value { result ≡ first_octet bytes.now }
    ensures small { IfSome result (λ p. (p.0 ≤ 255) × (p.1 < length bytes.now)) }
{
    let at = place(bytes, b'.')?;
    let octet = octet(&bytes[..at])?;
    Some((octet, at))
}

/// Returns the address that the bytes spell: four octets with `.` between them.
#[tactic(auto, unfolding(crate::specs::Values::address))]
fn address(bytes: &[u8]) -> Option<u32>
    ensures { result ≡ address bytes.now }
{
    let (first, at) = first_octet(bytes)?;
    let bytes = &bytes[at + 1..];
    let (second, at) = first_octet(bytes)?;
    let bytes = &bytes[at + 1..];
    let (third, at) = first_octet(bytes)?;
    let fourth = octet(&bytes[at + 1..])?;
    Some((((first * 256 + second) * 256 + third) * 256 + fourth) as u32)
}

/// Returns the mask whose first `len` bits are 1.
#[tactic(auto, unfolding(crate::specs::Values::mask_of))]
fn mask_of(len: u64) -> u32
    requires { len ≤ 32 }
    ensures { result ≡ mask_of len }
{
    let unit = 1u64 << (32 - len);
    (4294967296 - unit) as u32
}

/// Returns the prefix that the bytes spell: an address, `/` and a length of 0 to 32. Bits behind
/// the length are cleared.
#[tactic(auto, unfolding(crate::specs::Values::prefix))]
fn prefix(bytes: &[u8]) -> Option<Token>
    ensures { result ≡ prefix bytes.now }
{
    let at = place(bytes, b'/')?;
    let address = address(&bytes[..at])?;
    let mask = mask_of(decimal_in(&bytes[at + 1..], 32)?);
    Some(Token::Prefix {
        address: address & mask,
        mask,
    })
}

/// Returns the token of a word.
#[tactic(auto, unfolding(crate::specs::Values::token_of))]
pub fn token_of(word: &[u8]) -> Token
    ensures { result ≡ token_of word.now }
{
    if let Some(token) = keyword(word) {
        return token;
    }
    if let Some(address) = address(word) {
        return Token::Address(address);
    }
    if let Some(token) = prefix(word) {
        return token;
    }
    Token::Value(value(word))
}

/// Returns the output that a word names.
pub fn output_number(word: &[u8]) -> Option<u8>
    ensures { result ≡ small_or (number word.now) None }
{
    small_or(number(word), None)
}
