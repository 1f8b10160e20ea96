//! Patterns of Classifier.

ghost use Rattle.std.specs.Prelude.{◌≡◌, ◌≤◌, length, replicate, Ok};
ghost use Rattle.std.specs.List.{list_all};
ghost use Rattle.click_classes.specs.Patterns.{pattern_digit, value_of, counted_bits, mask_of, are_digits, is_mask, clause_of, unsigned, clause, is_dash, pattern};
ghost use Rattle.click_classes.specs.Steps.{each};
ghost use Rattle.click_classes.specs.kept.Answers.{IsOrNoMemory};

use crate::fault::ArgFault;
use crate::values::groups::place;
use click_base::sequence::Sequence;
use click_base::{all_hex_digits, decimal_in, digit_value, is_hex_digit};
use std::alloc::Global;

/// A clause: a condition on the bytes of a packet.
///
/// The packet must have bytes at the offset that agree with the value in each bit of the mask. If
/// the clause is negated, it must not.
#[derive(Drop)]
pub struct Clause {
    pub negated: bool,
    pub offset: u16,
    pub value: Sequence<u8>,
    pub mask: Sequence<u8>,
}

/// A pattern: clauses that must all hold. The pattern `-` has none.
#[derive(Drop)]
pub struct Pattern {
    pub clauses: Sequence<Clause>,
}

/// The maximum number of digits of a clause.
const MAX_PATTERN_DIGITS: usize = 128;

/// The digits of a mask in which every bit counts.
const FULL_MASK: [u8; MAX_PATTERN_DIGITS] = [b'f'; MAX_PATTERN_DIGITS];

/// Returns whether the byte is a hexadecimal digit or `?`.
fn is_pattern_digit(byte: u8) -> bool
    ensures { result ≡ pattern_digit byte }
{
    is_hex_digit(byte) || byte == b'?'
}

fn all_pattern_digits(bytes: &[u8]) -> bool
    ensures { result ≡ list_all pattern_digit bytes.now }
{
    bytes.iter().all(|byte| is_pattern_digit(*byte))
}

/// Returns whether these are 2 to 128 hexadecimal digits or `?`, an even number.
fn are_digits(digits: &[u8]) -> bool
    ensures { result ≡ are_digits digits.now }
{
    let len = digits.len();
    len % 2 == 0 && 2 <= len && len <= MAX_PATTERN_DIGITS && all_pattern_digits(digits)
}

/// Returns whether the mask has as many digits as the clause, all hexadecimal.
fn is_mask(digits: &[u8], mask: &[u8]) -> bool
    ensures { result ≡ is_mask digits.now mask.now }
{
    mask.len() == digits.len() && all_hex_digits(mask)
}

/// Returns the bytes that pairs of digits spell, with 0 for `?`.
fn value_of(alloc: Global, digits: &[u8]) -> Result<Sequence<u8>, ArgFault>
    ensures { IsOrNoMemory (Ok (value_of digits.now)) result }
{
    let mut value = Sequence::new(alloc);
    for i in 0..digits.len() / 2 {
        value.push(16 * digit_value(digits[2 * i]) + digit_value(digits[2 * i + 1]))?;
    }
    Ok(value)
}

/// Returns the bits of a mask's digit that count with this digit: none with `?`.
fn counted_bits(digit: u8, mask: u8) -> u8
    ensures value { result ≡ counted_bits digit mask }
    ensures small { result ≤ 15 }
{
    if digit == b'?' { 0 } else { digit_value(mask) }
}

/// Returns the bytes of a mask, for these digits.
fn mask_of(alloc: Global, digits: &[u8], mask: &[u8]) -> Result<Sequence<u8>, ArgFault>
    requires { length mask.now ≡ length digits.now }
    ensures { IsOrNoMemory (Ok (mask_of digits.now mask.now)) result }
{
    let mut bytes = Sequence::new(alloc);
    for i in 0..digits.len() / 2 {
        bytes.push(
            16 * counted_bits(digits[2 * i], mask[2 * i])
                + counted_bits(digits[2 * i + 1], mask[2 * i + 1]),
        )?;
    }
    Ok(bytes)
}

/// Returns the clause with these parts.
#[tactic(auto, unfolding(crate::specs::Patterns::clause_of))]
fn clause_of(
    alloc: Global,
    negated: bool,
    offset: u16,
    digits: &[u8],
    mask: &[u8],
) -> Result<Clause, ArgFault>
    ensures { IsOrNoMemory (clause_of negated offset digits.now mask.now) result }
{
    if !are_digits(digits) || !is_mask(digits, mask) {
        return Err(ArgFault::BadEntry);
    }
    let value = value_of(alloc, digits)?;
    let mask = mask_of(alloc, digits, mask)?;
    Ok(Clause {
        negated,
        offset,
        value,
        mask,
    })
}

/// Returns the clause with these parts and no mask.
fn full_clause(alloc: Global, negated: bool, offset: u16, digits: &[u8]) -> Result<Clause, ArgFault>
    ensures { IsOrNoMemory (clause_of negated offset digits.now (replicate (length digits.now) 102)) result }
{
    if digits.len() > MAX_PATTERN_DIGITS {
        return Err(ArgFault::BadEntry);
    }
    clause_of(alloc, negated, offset, digits, &FULL_MASK[..digits.len()])
}

/// Returns the clause that the text after its `!` spells.
fn unsigned(alloc: Global, negated: bool, text: &[u8]) -> Result<Clause, ArgFault>
    ensures { IsOrNoMemory (unsigned negated text.now) result }
{
    let Some(at) = place(text, b'/') else {
        return Err(ArgFault::BadEntry);
    };
    let Some(offset) = decimal_in(&text[..at], 1_599) else {
        return Err(ArgFault::BadEntry);
    };
    let rest = &text[at + 1..];
    match place(rest, b'%') {
        Some(end) => clause_of(
            alloc,
            negated,
            offset as u16,
            &rest[..end],
            &rest[end + 1..],
        ),
        None => full_clause(alloc, negated, offset as u16, rest),
    }
}

/// Returns the clause that `[!]offset/digits[%mask]` spells.
#[tactic(auto, unfolding(crate::specs::Patterns::clause))]
fn read_clause(alloc: Global, word: &[u8]) -> Result<Clause, ArgFault>
    ensures { IsOrNoMemory (clause word.now) result }
{
    if !word.is_empty() && word[0] == b'!' {
        unsigned(alloc, true, &word[1..])
    } else {
        unsigned(alloc, false, word)
    }
}

/// Returns whether the only word is `-`.
fn is_dash(words: &[Sequence<u8>]) -> bool
    ensures { result ≡ is_dash words.now }
{
    words.len() == 1 && words[0].as_slice() == b"-".as_slice()
}

/// Returns the clauses that words spell, or their first fault.
fn clauses(alloc: Global, words: &[Sequence<u8>]) -> Result<Sequence<Clause>, ArgFault>
    ensures { IsOrNoMemory (each clause words.now) result }
{
    let mut list = Sequence::new(alloc);
    for word in words {
        let clause = read_clause(alloc, word.as_slice())?;
        list.push(clause)?;
    }
    Ok(list)
}

/// Returns the pattern that words spell: `-`, or one or more clauses.
#[tactic(auto, unfolding(crate::specs::Patterns::pattern))]
pub fn read_pattern(alloc: Global, words: &[Sequence<u8>]) -> Result<Pattern, ArgFault>
    ensures { IsOrNoMemory (pattern words.now) result }
{
    if is_dash(words) {
        return Ok(Pattern {
            clauses: Sequence::new(alloc),
        });
    }
    if words.is_empty() {
        return Err(ArgFault::BadEntry);
    }
    let clauses = clauses(alloc, words)?;
    Ok(Pattern { clauses })
}
