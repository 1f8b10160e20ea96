//! Names in one buffer.

ghost use Rattle.std.specs.Prelude.{◌≡◌, ◌<◌, [], length, slice_index_or, IfOk};
ghost use Rattle.click_ports.specs.Net.{names_of};
ghost use Rattle.click_ports.specs.kept.NameTables.{name_within};

use click_expand::FlatElement;
use std::alloc::{AllocError, Global};
use std::marker::Model;

/// The bytes of a name, from `start` up to but not including `end`.
#[derive(Clone, Copy)]
pub struct NamePlace {
    pub start: usize,
    pub end: usize,
}

/// Names in order.
///
/// perf: two blocks of memory hold any number of names.
#[derive(Drop)]
pub struct NameTable {
    bytes: Vec<u8>,
    places: Vec<NamePlace>,
}

impl Model for NameTable {
    ghost use Rattle.std.specs.Prelude.{ℕ, List, map};
    ghost use Rattle.click_ports.specs.kept.NameTables.{name_within};

    ghost Value = { List (List ℕ) };

    ghost view = { λ t. map (name_within t.bytes.items) t.places.items };
}

/// Returns the bytes of a name, or those of them that exist.
fn part(bytes: &[u8], place: NamePlace) -> &[u8]
    ensures { result.now ≡ name_within bytes.now place }
{
    let rest = &bytes[place.start.min(bytes.len())..];
    &rest[..place.end.saturating_sub(place.start).min(rest.len())]
}

impl NameTable {
    /// Returns the names of these elements, or fails with out of memory.
    pub fn gather(alloc: Global, elements: &[FlatElement]) -> Result<NameTable, AllocError>
        ensures { IfOk result (λ names. names ≡ names_of elements.now) }
    {
        let mut bytes = Vec::new(alloc);
        let mut places = Vec::with_capacity(alloc, elements.len())?;
        for element in elements {
            let start = bytes.len();
            bytes.extend_from_slice(element.name.as_slice())?;
            places.push(NamePlace {
                start,
                end: bytes.len(),
            })?;
        }
        Ok(NameTable { bytes, places })
    }

    /// Returns the name at an index.
    pub fn at(&self, place: usize) -> &[u8]
        requires { place < length self.now }
        ensures { result.now ≡ slice_index_or self.now place [] }
    {
        part(self.bytes.as_slice(), self.places[place])
    }
}
