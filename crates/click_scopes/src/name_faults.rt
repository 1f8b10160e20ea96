//! Names and classes that are unknown, and names that are declared twice: the first one in the
//! text.

ghost use Rattle.std.specs.Prelude.{◌≡◌, length, slice_get, IfOk};
ghost use Rattle.click_scopes.specs.Analysis.{AreScopes};
ghost use Rattle.click_scopes.specs.kept.NameFaults.{IsWrongAt, IsWrongWithin, IsNameFaultWithin, IsWrongEntry, original_at};
ghost use Rattle.click_scopes.specs.kept.Nesting.{IsNested};
ghost use Rattle.click_scopes.specs.kept.Scoped.{AreSynonyms};
ghost use Rattle.click_scopes.specs.Scopes.{body_formals};
ghost use Rattle.click_scopes.specs.kept.FirstFault.{AreShort, IsLeast, IsNameFault};

use crate::classes::ClassEntry;
use crate::fault::WrongUse;
use crate::first_fault::{TokenFault, first_of, in_formals, in_scope_elements};
use crate::scopes::Scopes;
use click_text::syntax::{Body, Config, Span};
use std::alloc::{AllocError, Global};

/// Returns the misuse of a synonym whose word names no class.
fn unknown_original(entry: ClassEntry) -> Option<TokenFault>
    ensures { result ≡ original_at entry.original entry.class }
{
    match (entry.original, entry.class) {
        (Some(span), None) => Some(TokenFault {
            kind: WrongUse::UnknownClass,
            span,
        }),
        _ => None,
    }
}

/// Returns the first synonym of an unknown class.
fn in_entries(class_table: &[ClassEntry]) -> Option<TokenFault>
    ensures { IsLeast (IsWrongEntry class_table.now (length class_table.now)) result }
{
    let mut first = None;
    for entry in class_table {
        first = first_of(first, unknown_original(*entry));
    }
    first
}

/// Returns the first misuse of a name, class or declaration in the scope at an index.
fn in_scope(
    alloc: Global,
    config: &Config,
    scopes: &Scopes,
    place: usize,
) -> Result<Option<TokenFault>, AllocError>
    requires { AreShort config.now.bodies }
    ensures { IfOk result (IsLeast (IsWrongAt config.now scopes.now.scopes.items place)) }
{
    let text = config.text.as_slice();
    let bodies = config.bodies.as_slice();
    let elements = scopes.elements_at(place);
    in_scope_elements(alloc, text, bodies, place < bodies.len(), elements)
}

/// Returns the parameters of the body at an index.
fn formals_at(bodies: &[Body], place: usize) -> &[Span]
    ensures { result.now ≡ body_formals (slice_get bodies.now place) }
{
    match bodies.get(place) {
        Some(body) => body.formals.as_slice(),
        None => &[],
    }
}

/// Returns the first misuse of a name, class or declaration in the body at an index.
///
/// Its parameters are included.
fn in_body(
    alloc: Global,
    config: &Config,
    scopes: &Scopes,
    place: usize,
) -> Result<Option<TokenFault>, AllocError>
    requires { AreShort config.now.bodies }
    ensures { IfOk result (IsLeast (IsWrongWithin config.now scopes.now.scopes.items place)) }
{
    let text = config.text.as_slice();
    let formals = formals_at(config.bodies.as_slice(), place);
    let elements = in_scope(alloc, config, scopes, place)?;
    let parameters = in_formals(alloc, text, formals)?;
    Ok(first_of(elements, parameters))
}

/// Returns the first misuse of a name, class or declaration in any body.
fn in_bodies(
    alloc: Global,
    config: &Config,
    scopes: &Scopes,
) -> Result<Option<TokenFault>, AllocError>
    requires { AreShort config.now.bodies }
    ensures { IfOk result (IsLeast (IsNameFaultWithin config.now scopes.now.scopes.items (length config.now.bodies))) }
{
    let mut first = None;
    for place in 0..config.bodies.len() {
        let found = in_body(alloc, config, scopes, place)?;
        first = first_of(first, found);
    }
    Ok(first)
}

/// Returns the first unknown name or class, or the first repeated declaration of a name, in any
/// scope.
pub fn first_name_fault(
    alloc: Global,
    config: &Config,
    class_table: &[ClassEntry],
    scopes: &Scopes,
) -> Result<Option<TokenFault>, AllocError>
    requires nested { IsNested config.now }
    requires synonyms { AreSynonyms config.now class_table.now }
    requires scopes { AreScopes config.now scopes.now }
    ensures { IfOk result (IsLeast (IsNameFault config.now)) }
{
    let whole = in_scope(alloc, config, scopes, config.bodies.len())?;
    let bodies = in_bodies(alloc, config, scopes)?;
    let originals = in_entries(class_table);
    Ok(first_of(first_of(whole, bodies), originals))
}
