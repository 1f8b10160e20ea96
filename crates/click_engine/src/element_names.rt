//! Finds an element by its flat name.
ghost use Rattle.std.specs.Prelude.{◌≡◌, position};
ghost use Rattle.std.specs.Str.{bytes_eq};
ghost use Rattle.click_engine.specs.kept.Sums.{sum_of};

use click_ports::Net;
use indexmap::IndexMap;
use std::alloc::{AllocError, Global};

/// The checksum of the empty name. It is the start of the 64-bit FNV-1 hash (Fowler, Noll and
/// Vo). The checksum is a variant of that hash: it adds each byte where FNV-1 has an exclusive or.
const EMPTY_SUM: u64 = 0xcbf2_9ce4_8422_2325;

/// The factor by which the checksum is multiplied before each byte: the 64-bit FNV prime.
const SUM_FACTOR: u64 = 0x100_0000_01b3;

/// For the checksum of each flat name of a net, the first element whose name has it.
///
/// perf: the names stay in the net, so that none needs memory of its own.
#[derive(Drop)]
pub(crate) struct ElementNames {
    first: IndexMap<u64, usize>,
}

/// Returns the checksum of a name.
fn sum_of(name: &[u8]) -> u64
    ensures { result ≡ sum_of name.now }
{
    let mut sum = EMPTY_SUM;
    for byte in name {
        sum = sum.wrapping_mul(SUM_FACTOR).wrapping_add(u64::from(*byte));
    }
    sum
}

/// Returns the first element with that flat name. Compares all names.
///
/// perf: called only if two names have the same checksum.
#[cold]
#[inline(never)]
fn first_named(net: &Net, name: &[u8]) -> Option<usize>
    ensures { result ≡ position (bytes_eq name.now) net.now.names }
{
    for at in 0..net.shapes().len() {
        if name == net.name(at) {
            return Some(at);
        }
    }
    None
}

impl ElementNames {
    ghost use Rattle.std.specs.Prelude.{◌≡◌, IfOk, position};
    ghost use Rattle.std.specs.Str.{bytes_eq};
    ghost use Rattle.click_engine.specs.kept.Sums.{FindsSums};

    /// Collects the flat names of a net's elements.
    pub(crate) fn of(alloc: Global, net: &Net) -> Result<ElementNames, AllocError>
        ensures { IfOk result (λ t. FindsSums t net.now.names) }
    {
        let count = net.shapes().len();
        let mut first = IndexMap::with_capacity(alloc, count)?;
        // From the last to the first, so that the first of several stays.
        for at in (0..count).rev() {
            first.insert(sum_of(net.name(at)), at)?;
        }
        Ok(ElementNames { first })
    }

    /// Returns the index of the first element of the net with that flat name.
    pub(crate) fn place(&self, net: &Net, name: &[u8]) -> Option<usize>
        requires { FindsSums self.now net.now.names }
        ensures { result ≡ position (bytes_eq name.now) net.now.names }
    {
        let first = *self.first.get(&sum_of(name))?;
        if name == net.name(first) {
            return Some(first);
        }
        first_named(net, name)
    }
}
