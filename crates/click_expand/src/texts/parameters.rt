//! Parameters in configuration strings.

ghost use Rattle.std.specs.Prelude.{◌≡◌, ◌<◌, ◌≤◌, ◌+◌, length, drop, option_map, position};
ghost use Rattle.std.specs.List.{prefix_len};
ghost use Rattle.std.specs.Str.{bytes_eq};
ghost use Rattle.click_text.specs.Pieces.{name_byte};
ghost use Rattle.click_text.specs.Spans.{bytes_at};
ghost use Rattle.click_expand.specs.kept.Texts.{formal_of, formal_run, formal_in};

use click_text::syntax::Span;

/// A parameter at the beginning of a text: the span of its name, and its number of bytes.
#[derive(Clone, Copy)]
pub struct Parameter {
    pub name: Span,
    pub size: usize,
}

fn is_name_byte(byte: u8) -> bool
    ensures { result ≡ name_byte byte }
{
    byte.is_ascii_alphanumeric() || byte == b'_'
}

/// Returns the number of name bytes at the beginning of a text.
fn name_len(text: &[u8]) -> usize
    ensures within { result ≤ length text.now }
    ensures run { result ≡ prefix_len name_byte text.now }
{
    for (i, byte) in text.iter().enumerate() {
        if !is_name_byte(*byte) {
            return i;
        }
    }
    text.len()
}

/// Returns the parameter whose name begins at `start`, with `extra` further bytes.
///
/// Returns `None` if the name is empty.
fn named_from(text: &[u8], start: usize, extra: usize) -> Option<Parameter>
    requires start { start ≤ length text.now }
    requires extra { extra ≤ 3 }
    ensures formal { option_map (formal_of text.now) result ≡ formal_run (drop start text.now) extra }
{
    let len = name_len(&text[start..]);
    if len == 0 {
        return None;
    }
    Some(Parameter {
        name: Span {
            start,
            end: start + len,
        },
        size: len + extra,
    })
}

/// Returns the parameter at the beginning of a text, if there is one: `$x` or `${x}`.
pub fn parameter_at(text: &[u8]) -> Option<Parameter>
    ensures formal { option_map (formal_of text.now) result ≡ formal_in text.now }
{
    match text {
        [b'$', b'{', rest @ ..] => {
            let len = name_len(rest);
            match &rest[len..] {
                [b'}', ..] => named_from(text, 2, 3),
                _ => None,
            }
        }
        [b'$', ..] => named_from(text, 1, 1),
        _ => None,
    }
}

/// Returns whether the word is `$` and this name.
fn is_named(word: &[u8], name: &[u8]) -> bool
    ensures { result ≡ bytes_eq (drop 1 word.now) name.now }
{
    match word {
        [_, rest @ ..] => rest == name,
        [] => name.is_empty(),
    }
}

/// Returns the index of the first parameter with this name.
pub fn formal_place(text: &[u8], formals: &[Span], name: &[u8]) -> Option<usize>
    ensures { result ≡ position (λ f. bytes_eq (drop 1 (bytes_at text.now f)) name.now) formals.now }
{
    for (place, formal) in formals.iter().enumerate() {
        if is_named(formal.of(text), name) {
            return Some(place);
        }
    }
    None
}
