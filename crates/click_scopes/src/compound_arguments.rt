//! The arguments of the elements of compounds.

ghost use Rattle.std.specs.Prelude.{◌≡◌, ℕ, Some, IfOk};
ghost use Rattle.click_text.specs.Arguments.{AreArguments};
ghost use Rattle.click_scopes.specs.Classes.{compound};
ghost use Rattle.click_scopes.specs.Elements.{string_or_empty};
ghost use Rattle.click_scopes.specs.kept.Tables.{meaning_by};

use crate::classes::ResolvedClass;
use click_base::sequence::Sequence;
use click_text::arguments;
use click_text::syntax::Span;
use std::alloc::{AllocError, Global};

/// Returns the text between the parentheses of a configuration string, or nothing if none is
/// written.
pub fn string_inside<'a>(text: &'a [u8], string: Option<Span>) -> &'a [u8]
    ensures { result.now ≡ string_or_empty text.now string }
{
    match string {
        Some(span) => span.text_of(text),
        None => &[],
    }
}

/// Returns the spans of the arguments of an element of a compound, in its configuration string.
///
/// Other elements have no such spans.
pub(crate) fn arguments_of(
    alloc: Global,
    text: &[u8],
    class: Option<ResolvedClass>,
    string: Option<Span>,
) -> Result<Sequence<Span>, AllocError>
    ensures { IfOk result (λ spans. (b : ℕ) → meaning_by class ≡ Some (compound b) → AreArguments (string_or_empty text.now string) spans) }
{
    if let Some(ResolvedClass::Compound(_)) = class {
        let Ok(spans) = arguments(alloc, string_inside(text, string)) else {
            return Err(AllocError);
        };
        return Ok(Sequence::of(spans));
    }
    Ok(Sequence::new(alloc))
}
