//! The size of a configuration, before it is expanded.

ghost use Rattle.std.specs.Prelude.{◌≡◌, ◌+◌, ◌++◌, ◌∷◌, [], min, slice_get, IfOk, OnOk};
ghost use Rattle.click_scopes.specs.Analysis.{AreScopes};
ghost use Rattle.click_scopes.specs.kept.Nesting.{IsNested};
ghost use Rattle.click_scopes.specs.Faults.{IsFaultless};
ghost use Rattle.click_expand.specs.kept.Sizes.{IsSizeOf};
ghost use Rattle.click_expand.specs.Flat.{most_elements, most_paths};
ghost use Rattle.click_expand.specs.kept.Counted as spec;
ghost use Rattle.click_expand.specs.kept.Counted.{size_or, IsSum};

use click_scopes::{ResolvedClass, ScopeElement, Scopes};
use click_text::syntax::Config;
use std::alloc::{AllocError, Global};

/// The maximum number of flat elements.
pub const MAX_ELEMENTS: usize = 4096;

/// The maximum number of paths to flat elements and compounds.
pub const MAX_PATHS: usize = 16384;

/// The number of flat elements, and the number of paths to them and to compounds.
///
/// A number that passes its limit is the limit plus one.
#[derive(Clone, Copy, Debug, PartialEq, Eq)]
pub struct Size {
    pub elements: usize,
    pub paths: usize,
}

/// Returns the sum, or `cap` if the sum is greater.
fn capped(a: usize, b: usize, cap: usize) -> usize
    ensures { result ≡ min (a + b) cap }
{
    a.saturating_add(b).min(cap)
}

/// Returns the size of the scope at an index.
fn size_at(sizes: &[Size], place: usize) -> Size
    ensures { result ≡ size_or (slice_get sizes.now place) }
{
    match sizes.get(place) {
        Some(size) => *size,
        None => Size {
            elements: 0,
            paths: 0,
        },
    }
}

/// Returns the size inside an element of this class.
fn size_inside(sizes: &[Size], class: Option<ResolvedClass>) -> Size
    ensures { result ≡ spec.size_inside sizes.now class }
{
    match class {
        Some(ResolvedClass::Compound(body)) => size_at(sizes, body),
        _ => Size {
            elements: 1,
            paths: 0,
        },
    }
}

/// Returns the size with one more element.
fn with_element(all: Size, inside: Size) -> Size
    ensures elements { result.elements ≡ min (all.elements + inside.elements) (most_elements + 1) }
    ensures paths { result.paths ≡ min (all.paths + (inside.paths + 1)) (most_paths + 1) }
{
    Size {
        elements: capped(all.elements, inside.elements, MAX_ELEMENTS + 1),
        paths: capped(
            capped(all.paths, 1, MAX_PATHS + 1),
            inside.paths,
            MAX_PATHS + 1,
        ),
    }
}

/// Returns the size of a scope, from the sizes of the bodies before it.
fn scope_size(sizes: &[Size], scope_elements: &[ScopeElement]) -> Size
    ensures { IsSum sizes.now scope_elements.now result }
{
    let mut all = Size {
        elements: 0,
        paths: 0,
    };
    for scope_element in scope_elements {
        all = with_element(all, size_inside(sizes, scope_element.class));
    }
    all
}

/// Appends a size.
fn push_size(sizes: &mut Vec<Size>, size: Size) -> Result<(), AllocError>
    ensures { OnOk result (sizes.new.items ≡ sizes.old.items ++ size ∷ []) }
{
    sizes.push(size)?;
    Ok(())
}

/// Returns the size of a configuration, or fails with out of memory.
///
/// perf: each scope is counted once, and not once for each instance.
pub fn size_of(alloc: Global, config: &Config, scopes: &Scopes) -> Result<Size, AllocError>
    requires nested { IsNested config.now }
    requires sound { IsFaultless config.now }
    requires scopes { AreScopes config.now scopes.now }
    ensures { IfOk result (λ size. IsSizeOf config.now size) }
{
    let mut sizes = Vec::new(alloc);
    let all = scopes.scopes.as_slice();
    for scope in all {
        let size = scope_size(sizes.as_slice(), scope.elements.as_slice());
        push_size(&mut sizes, size)?;
    }
    Ok(size_at(sizes.as_slice(), config.bodies.len()))
}
