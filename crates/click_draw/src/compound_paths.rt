//! The outermost compounds that elements are in. The layout keeps their elements together.

use crate::compounds::Compounds;
use click_ports::Net;
use std::alloc::{AllocError, Global};

/// The outermost compound that an element is in, and the next one within it. Each is named by its
/// first element; `usize::MAX` stands for none.
#[derive(Clone, Copy, Debug, PartialEq, Eq)]
pub struct CompoundPath {
    pub outer: usize,
    pub inner: usize,
}

impl CompoundPath {
    /// Returns the path of an element that is in no compound.
    pub fn none() -> CompoundPath {
        CompoundPath {
            outer: usize::MAX,
            inner: usize::MAX,
        }
    }

    /// Returns the compounds that are in both paths.
    pub fn shared(self, other: CompoundPath) -> CompoundPath {
        let same = |a: usize, b: usize| if a == b { a } else { usize::MAX };
        CompoundPath {
            outer: same(self.outer, other.outer),
            inner: same(self.inner, other.inner),
        }
    }
}

/// Returns the length of the common prefix of two names, in bytes.
fn shared_len(a: &[u8], b: &[u8]) -> usize {
    a.iter().zip(b).take_while(|(x, y)| x == y).count()
}

/// Returns the number of compounds that two elements are both in. `a` and `b` are their flat names
/// and the lengths of the names of the compounds around them.
pub fn shared_depth(a: (&[u8], &[usize]), b: (&[u8], &[usize])) -> usize {
    let shared = shared_len(a.0, b.0);
    a.1.iter()
        .zip(b.1)
        .take_while(|(x, y)| x == y && **x < shared)
        .count()
}

/// Returns the compound paths of the elements. The elements of a compound follow one another in
/// flat order.
pub fn compound_paths_of(
    alloc: Global,
    net: &Net,
    compounds: &Compounds,
) -> Result<Vec<CompoundPath>, AllocError> {
    let mut compound_paths = Vec::new(alloc);
    let mut last = CompoundPath::none();
    let mut before: (&[u8], &[usize]) = (b"", &[]);
    for element in 0..net.shapes().len() {
        let name = net.name(element);
        let around = compounds.around(name);
        let shared = shared_depth(before, (name, around));
        let compound_at = |depth: usize, old: usize| {
            if around.len() <= depth {
                usize::MAX
            } else if shared > depth {
                old
            } else {
                element
            }
        };
        last = CompoundPath {
            outer: compound_at(0, last.outer),
            inner: compound_at(1, last.inner),
        };
        compound_paths.push(last)?;
        before = (name, around);
    }
    Ok(compound_paths)
}
