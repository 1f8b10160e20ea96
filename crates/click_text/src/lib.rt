//! The configuration language: lexer, grammar, parser, and the parts of configuration strings.
#![tactic(auto)]

ghost use Rattle.std.specs.Prelude.{◌≡◌, ◌<◌, ◌≤◌, length, IfOk, IfErr, OnOk};
ghost use Rattle.click_text.specs.declared.syntax.Config.{Config};
ghost use Rattle.click_text.specs.Faults.{IsMemoryOr};
ghost use Rattle.click_text.specs.Spelling.{longest_text, too_large, Spells, IsAnswered, IsGiven};

mod argument_bytes;
pub mod argument_laws;
mod argument_spans;
mod argument_words;
mod items;
pub mod laws;
mod lexer;
mod parser;
mod strings;
pub mod syntax;
mod tokens;

pub use argument_bytes::unquote;
pub use argument_spans::arguments;
pub use argument_words::{without_comments, words};
pub use items::{ItemKind, first_item};
use lexer::scan;
use parser::config_of;
use std::alloc::Global;
pub use strings::string_len;
pub use syntax::{Config, Span, TextFault};

/// The maximum length of a configuration, in bytes.
pub const MAX_TEXT_BYTES: usize = 1_048_576;

/// Returns the configuration that a text spells, or its first fault.
///
/// A text of more than 1,048,576 bytes always fails with `TooLarge`. Any other text may fail with
/// `NoMemory`.
pub fn parse(alloc: Global, text: &[u8]) -> Result<Config, TextFault>
    // The returned configuration is one that the text spells.
    ensures found { IfOk result (λ config. Spells text.now config) }
    ensures within { OnOk result (length text.now ≤ longest_text) }
    // A configuration that the text spells is returned, unless the call runs out of memory.
    ensures only { (config : Config) → length text.now ≤ longest_text → Spells text.now config → IsGiven result config }
    // The fault is out of memory, `TooLarge`, or the first fault of the text.
    ensures err { IfErr result (λ f. IsMemoryOr f (IsAnswered text.now f)) }
    ensures large { longest_text < length text.now → result ≡ Err too_large }
{
    if text.len() > MAX_TEXT_BYTES {
        return Err(TextFault::too_large());
    }
    let (tokens, ending) = scan(alloc, text)?;
    config_of(alloc, text, &tokens, ending)
}
