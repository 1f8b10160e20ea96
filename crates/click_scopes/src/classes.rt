//! The class that a name means.

ghost use Rattle.std.specs.Prelude.{◌≡◌, ℕ, List, ◌++◌, ◌∷◌, [], OnOk, Option, MatchOption};
ghost use Rattle.click_text.specs.declared.syntax.Statement.{Statement};
ghost use Rattle.click_text.specs.Spans.{bytes_at};
ghost use Rattle.click_scopes.specs.Classes.{Meaning, primitive_of, meaning, class_meaning, requires_gateway};
ghost use Rattle.click_scopes.specs.kept.Tables.{meaning_by, entry_meaning, Shows, entry_from};

use click_base::{Class, class_of, gateway_class_of};
use click_text::syntax::{ClassReference, Span, Statement};
use std::alloc::AllocError;

/// A class: one of the router's, or a compound.
#[derive(Clone, Copy, Debug, PartialEq, Eq)]
pub enum ResolvedClass {
    /// A class of the router.
    Primitive(Class),
    /// The compound whose body has this index.
    Compound(usize),
}

/// A definition of a class, and the index of the one that is visible before it.
///
/// A requirement of the gateway package is one definition, of all classes of the package.
#[derive(Clone, Copy)]
pub struct ClassEntry {
    pub name: Span,
    pub class: Option<ResolvedClass>,
    pub older: Option<usize>,
    /// The word for its class, if the definition is a synonym.
    pub original: Option<Span>,
    /// Whether this is a requirement of the gateway package. It has no name and no class then.
    pub gateway: bool,
}

/// Returns the class that a word means if no definition has its name.
fn primitive(word: &[u8]) -> Option<ResolvedClass>
    ensures { meaning_by result ≡ primitive_of word.now }
{
    match class_of(word) {
        Some(class) => Some(ResolvedClass::Primitive(class)),
        None => None,
    }
}

/// Returns the definition at an index, with the index, if it is below the limit.
fn entry_at(
    class_table: &[ClassEntry],
    at: Option<usize>,
    limit: usize,
) -> Option<(usize, ClassEntry)>
    ensures { result ≡ entry_from class_table.now at limit }
{
    match at {
        Some(place) if place < limit && place < class_table.len() => Some((
            place,
            class_table[place],
        )),
        _ => None,
    }
}

/// Returns whether a requirement makes the classes of the gateway package visible.
///
/// It does if the text in its parentheses is exactly `gateway`.
pub fn requires_gateway(text: &[u8], required: Option<Span>) -> bool
    ensures { result ≡ requires_gateway text.now required }
{
    match required {
        Some(span) => span.text_of(text) == b"gateway".as_slice(),
        None => false,
    }
}

/// Returns the meaning that a definition gives to a word, if it defines the word.
///
/// The meaning of a synonym of an unknown class is `None`.
fn find_in_entry(text: &[u8], entry: &ClassEntry, word: &[u8]) -> Option<Option<ResolvedClass>>
    ensures { MatchOption result
        ((other : Option Meaning) → entry_meaning text.now entry.now word.now other ≡ other)
        (λ m. (other : Option Meaning) → entry_meaning text.now entry.now word.now other ≡ meaning_by m) }
{
    if entry.gateway {
        return match gateway_class_of(word) {
            Some(class) => Some(Some(ResolvedClass::Primitive(class))),
            None => None,
        };
    }
    if entry.name.of(text) == word {
        return Some(entry.class);
    }
    None
}

/// Returns the class that a word means.
///
/// The last definition that is visible has the index `visible_class`.
pub fn find(
    text: &[u8],
    class_table: &[ClassEntry],
    visible_class: Option<usize>,
    word: Span,
) -> Option<ResolvedClass>
    ensures { (visible : List Statement) → Shows text.now class_table.now visible_class visible → meaning_by result ≡ meaning text.now visible (bytes_at text.now word) }
{
    let mut at = visible_class;
    let mut limit = class_table.len();
    while let Some((place, entry)) = entry_at(class_table, at, limit) {
        match find_in_entry(text, &entry, word.of(text)) {
            Some(class) => return class,
            None => {}
        }
        at = entry.older;
        limit = place;
    }
    primitive(word.of(text))
}

/// Returns the class that a class reference means.
///
/// The last definition that is visible has the index `visible_class`.
pub fn class_at(
    text: &[u8],
    class_table: &[ClassEntry],
    visible_class: Option<usize>,
    class: ClassReference,
) -> Option<ResolvedClass>
    ensures { (visible : List Statement) → Shows text.now class_table.now visible_class visible → meaning_by result ≡ class_meaning text.now visible class }
{
    match class {
        ClassReference::Named(word) => find(text, class_table, visible_class, word),
        ClassReference::Body(body) => Some(ResolvedClass::Compound(body)),
    }
}
