//! Test scripts: their lines, cases and steps.

use click_base::decimal_number;
use memchr::memchr;
use std::alloc::{AllocError, AllocFailed, Global};

/// A step of a script. Escapes are resolved in `words`, `input` and `output`.
///
/// In `wanted` only repetitions are resolved. Bytes stay escaped, as `push_words` of click_lines
/// escapes them.
#[derive(Clone, Copy)]
pub struct Step<'a> {
    pub line: usize,
    pub who: &'a [u8],
    pub words: &'a [u8],
    pub wanted: &'a [u8],
    pub input: &'a [u8],
    pub output: &'a [u8],
    pub groups: &'a [Group],
}

/// The ends of a group in the input and the output of its step.
///
/// A group is lines of input and the lines of output after them.
#[derive(Clone, Copy)]
pub struct Group {
    pub input: usize,
    pub output: usize,
    /// Whether the group has a line of output.
    answered: bool,
}

/// Why a step cannot be played.
#[derive(Clone, Copy, Debug, PartialEq, Eq)]
pub enum Trouble {
    /// The player itself ran out of memory.
    NoMemory,
    /// The script has a fault.
    Malformed,
}

impl From<AllocError> for Trouble {
    fn from(_error: AllocError) -> Trouble {
        Trouble::NoMemory
    }
}

impl<T: Drop> From<AllocFailed<T>> for Trouble {
    fn from(_refused: AllocFailed<T>) -> Trouble {
        Trouble::NoMemory
    }
}

/// Why a script cannot be read.
#[derive(Clone, Copy, Debug, PartialEq, Eq)]
pub enum ScriptFault {
    NoMemory,
    /// The fault of a line, which is counted from 1.
    Malformed { line: usize, why: &'static str },
}

impl From<AllocError> for ScriptFault {
    fn from(_error: AllocError) -> ScriptFault {
        ScriptFault::NoMemory
    }
}

impl<T: Drop> From<AllocFailed<T>> for ScriptFault {
    fn from(_refused: AllocFailed<T>) -> ScriptFault {
        ScriptFault::NoMemory
    }
}

/// The lines of a step.
#[derive(Drop)]
pub struct StepLines<'a> {
    line: usize,
    who: &'a [u8],
    words: Vec<u8>,
    wanted: Vec<u8>,
    input: Vec<u8>,
    output: Vec<u8>,
    groups: Vec<Group>,
}

impl<'a> StepLines<'a> {
    /// Returns the step of these lines.
    pub fn step(&self) -> Step<'_> {
        Step {
            line: self.line,
            who: self.who,
            words: self.words.as_slice(),
            wanted: self.wanted.as_slice(),
            input: self.input.as_slice(),
            output: self.output.as_slice(),
            groups: self.groups.as_slice(),
        }
    }

    /// Adds a line of input. It begins a group unless the line before it is one of input.
    fn add_input(&mut self, bytes: &[u8]) -> Result<(), AllocError> {
        self.input.extend_from_slice(bytes)?;
        let input = self.input.len();
        match self.groups.last_mut() {
            Some(group) if !group.answered => group.input = input,
            _ => self.groups.push(Group {
                input,
                output: self.output.len(),
                answered: false,
            })?,
        }
        Ok(())
    }

    /// Adds a line of output to the last group.
    fn add_output(&mut self, bytes: &[u8]) -> Result<(), AllocError> {
        self.output.extend_from_slice(bytes)?;
        if let Some(group) = self.groups.last_mut() {
            group.output = self.output.len();
            group.answered = true;
        }
        Ok(())
    }
}

/// A case of a script: what it shows, and its steps.
#[derive(Drop)]
pub struct Case<'a> {
    pub line: usize,
    pub sentence: &'a [u8],
    pub steps: Vec<StepLines<'a>>,
}

/// Splits a text at the first occurrence of a byte, which is in neither part.
///
/// If the byte does not occur, returns the whole text and an empty one.
pub fn cut(text: &[u8], byte: u8) -> (&[u8], &[u8]) {
    match memchr(byte, text) {
        None => (text, &[]),
        Some(at) => (&text[..at], &text[at + 1..]),
    }
}

/// Returns the number of decimal digits, up to 1,000,000,000.
pub fn number_of(digits: &[u8]) -> Result<usize, Trouble> {
    match decimal_number(digits, 0, 1_000_000_000) {
        Ok(number) => Ok(number as usize),
        Err(_) => Err(Trouble::Malformed),
    }
}

/// Returns the cases of a script.
pub fn cases_of<'a>(alloc: Global, script: &'a [u8]) -> Result<Vec<Case<'a>>, ScriptFault> {
    let mut cases = Vec::new(alloc);
    let mut number: usize = 0;
    for line in script.split(|byte| *byte == b'\n') {
        number = number.saturating_add(1);
        add_line(alloc, &mut cases, number, line)?;
    }
    match cases.last() {
        None => Err(fault(number, "the file has no case")),
        Some(case) if case.steps.is_empty() => Err(fault(case.line, "the case has no step")),
        Some(_) => Ok(cases),
    }
}

fn fault(line: usize, why: &'static str) -> ScriptFault {
    ScriptFault::Malformed { line, why }
}

/// Adds a line to the cases before it.
fn add_line<'a>(
    alloc: Global,
    cases: &mut Vec<Case<'a>>,
    number: usize,
    line: &'a [u8],
) -> Result<(), ScriptFault> {
    match line.first() {
        None => Ok(()),
        Some(first) => match *first {
            b'#' => Ok(()),
            b'<' | b'>' => add_bytes(alloc, cases, number, line),
            _ => {
                let (who, rest) = cut(line, b'\t');
                if who == b"case".as_slice() {
                    add_case(alloc, cases, number, rest)
                } else {
                    add_step(alloc, cases, number, line)
                }
            }
        },
    }
}

/// Begins a case.
fn add_case<'a>(
    alloc: Global,
    cases: &mut Vec<Case<'a>>,
    number: usize,
    sentence: &'a [u8],
) -> Result<(), ScriptFault> {
    if sentence.is_empty() {
        return Err(fault(number, "the case has no sentence"));
    }
    match cases.last() {
        Some(case) if case.steps.is_empty() => {
            return Err(fault(case.line, "the case has no step"));
        }
        _ => {}
    }
    cases.push(Case {
        line: number,
        sentence,
        steps: Vec::new(alloc),
    })?;
    Ok(())
}

/// Adds a step to the last case.
fn add_step<'a>(
    alloc: Global,
    cases: &mut Vec<Case<'a>>,
    number: usize,
    line: &'a [u8],
) -> Result<(), ScriptFault> {
    let Some(case) = cases.last_mut() else {
        return Err(fault(number, "the step comes before the first case"));
    };
    let (who, rest) = cut(line, b'\t');
    if memchr(b'\t', rest).is_none() {
        return Err(fault(number, "the step has no expected reply"));
    }
    let (words, wanted) = cut(rest, b'\t');
    let words = resolved(alloc, number, words, false)?;
    let wanted = resolved(alloc, number, wanted, true)?;
    case.steps.push(StepLines {
        line: number,
        who,
        words,
        wanted,
        input: Vec::new(alloc),
        output: Vec::new(alloc),
        groups: Vec::new(alloc),
    })?;
    Ok(())
}

/// Adds the bytes of a line of input or output to the last step.
fn add_bytes<'a>(
    alloc: Global,
    cases: &mut Vec<Case<'a>>,
    number: usize,
    line: &[u8],
) -> Result<(), ScriptFault> {
    let Some(case) = cases.last_mut() else {
        return Err(fault(number, "the bytes come before the first step"));
    };
    let Some(step) = case.steps.last_mut() else {
        return Err(fault(number, "the bytes come before the first step"));
    };
    let (mark, rest) = cut(line, b' ');
    match mark {
        b"<" => {
            let bytes = line_bytes(alloc, number, rest, b"\n")?;
            step.add_input(bytes.as_slice())?;
            Ok(())
        }
        b">" => {
            let bytes = line_bytes(alloc, number, rest, b"\r\n")?;
            step.add_output(bytes.as_slice())?;
            Ok(())
        }
        _ => Err(fault(number, "the mark < or > must be followed by a space")),
    }
}

/// Returns the bytes of a text and its line end, which a lone backslash at the end removes.
fn line_bytes(
    alloc: Global,
    number: usize,
    text: &[u8],
    end: &[u8],
) -> Result<Vec<u8>, ScriptFault> {
    match text.split_last() {
        Some((last, front)) if *last == b'\\' => resolved(alloc, number, front, false),
        _ => {
            let mut bytes = resolved(alloc, number, text, false)?;
            bytes.extend_from_slice(end)?;
            Ok(bytes)
        }
    }
}

/// Returns the bytes of a text with escapes. If `spelled`, escaped bytes stay escaped.
fn resolved(
    alloc: Global,
    line: usize,
    text: &[u8],
    spelled: bool,
) -> Result<Vec<u8>, ScriptFault> {
    let mut bytes = Vec::new(alloc);
    match push_text(alloc, &mut bytes, text, spelled) {
        Ok(()) => Ok(bytes),
        Err(Trouble::NoMemory) => Err(ScriptFault::NoMemory),
        Err(Trouble::Malformed) => Err(fault(
            line,
            "a backslash must be followed by two lower-case hex digits or by *N(TEXT)",
        )),
    }
}

/// The first piece of a text with escapes.
#[derive(Clone, Copy)]
enum Piece<'a> {
    /// A plain byte.
    Plain(u8),
    /// A byte that is escaped by two hex digits.
    Spelled(u8),
    /// A repeated text, with the number of repetitions.
    Repeated(usize, &'a [u8]),
}

/// Adds the bytes of a text with escapes.
fn push_text(
    alloc: Global,
    bytes: &mut Vec<u8>,
    text: &[u8],
    spelled: bool,
) -> Result<(), Trouble> {
    let mut rest = text;
    for _ in 0..text.len() {
        if rest.is_empty() {
            return Ok(());
        }
        let (piece, behind) = piece_of(rest)?;
        match piece {
            Piece::Repeated(times, inner) => {
                let mut once = Vec::new(alloc);
                push_plain(&mut once, inner, spelled)?;
                push_times(bytes, times, once.as_slice())?;
            }
            _ => push_byte(bytes, &piece, spelled)?,
        }
        rest = behind;
    }
    Ok(())
}

/// Adds the bytes of a text with escapes but without repetitions.
fn push_plain(bytes: &mut Vec<u8>, text: &[u8], spelled: bool) -> Result<(), Trouble> {
    let mut rest = text;
    for _ in 0..text.len() {
        if rest.is_empty() {
            return Ok(());
        }
        let (piece, behind) = piece_of(rest)?;
        push_byte(bytes, &piece, spelled)?;
        rest = behind;
    }
    Ok(())
}

/// Adds the bytes a number of times.
fn push_times(bytes: &mut Vec<u8>, times: usize, once: &[u8]) -> Result<(), AllocError> {
    for _ in 0..times {
        bytes.extend_from_slice(once)?;
    }
    Ok(())
}

/// Adds a byte. If `spelled`, an escaped byte is added in its escaped form.
fn push_byte(bytes: &mut Vec<u8>, piece: &Piece<'_>, spelled: bool) -> Result<(), Trouble> {
    match piece {
        Piece::Plain(byte) => bytes.push(*byte)?,
        Piece::Spelled(byte) if spelled => {
            let mut digits = [0; 2];
            match hex::encode_to_slice([*byte].as_slice(), &mut digits) {
                Ok(()) => {
                    bytes.push(b'\\')?;
                    bytes.extend_from_slice(&digits)?;
                }
                Err(_) => return Err(Trouble::Malformed),
            }
        }
        Piece::Spelled(byte) => bytes.push(*byte)?,
        Piece::Repeated(..) => return Err(Trouble::Malformed),
    }
    Ok(())
}

/// Returns the first piece of a text, and the rest of the text.
fn piece_of(text: &[u8]) -> Result<(Piece<'_>, &[u8]), Trouble> {
    let Some((first, behind)) = text.split_first() else {
        return Err(Trouble::Malformed);
    };
    if *first != b'\\' {
        return Ok((Piece::Plain(*first), behind));
    }
    match behind.split_first() {
        Some((mark, inner)) if *mark == b'*' => repeated(inner),
        _ => spelled_byte(behind),
    }
}

/// Returns a repetition, and the rest after it. `text` begins after the star.
fn repeated(text: &[u8]) -> Result<(Piece<'_>, &[u8]), Trouble> {
    if memchr(b')', text).is_none() {
        return Err(Trouble::Malformed);
    }
    let (digits, rest) = cut(text, b'(');
    let (inner, behind) = cut(rest, b')');
    Ok((Piece::Repeated(number_of(digits)?, inner), behind))
}

/// Returns the byte of two lower-case hex digits, and the rest after them.
fn spelled_byte(text: &[u8]) -> Result<(Piece<'_>, &[u8]), Trouble> {
    if text.len() < 2 {
        return Err(Trouble::Malformed);
    }
    let digits = &text[..2];
    let mut byte = [0; 1];
    let upper = digits.iter().any(|digit| b'A' <= *digit && *digit <= b'F');
    if upper || hex::decode_to_slice(digits, &mut byte).is_err() {
        return Err(Trouble::Malformed);
    }
    Ok((Piece::Spelled(byte[0]), &text[2..]))
}
