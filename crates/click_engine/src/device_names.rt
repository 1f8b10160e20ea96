//! Names of devices. The first few are found by comparison, without an index.
ghost use Rattle.std.specs.Prelude.{◌≡◌, ◌≤◌, ◌++◌, ◌∷◌, [], take, vec_len, position, IfSome, Some, OnOk, OnErr, if◌then◌else◌};
ghost use Rattle.std.specs.Str.{bytes_eq};
ghost use Rattle.click_base.specs.NameLists.{has_name};
ghost use Rattle.click_engine.specs.kept.Tables.{texts};

use click_base::Names;
use std::alloc::{AllocError, Global};
use std::marker::Model;

/// The number of names that are compared one after another before the index is searched.
///
/// perf: a search of the index takes longer than a few comparisons.
const MAX_UNINDEXED: usize = 8;

/// Names in order, without repetition.
#[derive(Drop)]
pub struct DeviceNames {
    all: Names,
    /// The first names, at most `MAX_UNINDEXED`.
    unindexed: Vec<Vec<u8>>,
}

impl Model for DeviceNames {
    ghost use Rattle.std.specs.Prelude.{◌≡◌, List, ℕ, take};
    ghost use Rattle.click_engine.specs.kept.Tables.{texts};

    ghost Value = { List (List ℕ) };

    ghost view = { λ n. n.all };

    ghost invariant = { λ n. texts n.unindexed.items ≡ take 8 n.all };
}

/// Returns whether two names are equal.
///
/// perf: inline, because most names are so short that a call would take longer.
#[inline(always)]
fn is_name(name: &[u8], other: &[u8]) -> bool
    ensures { result ≡ bytes_eq name.now other.now }
{
    if name.len() != other.len() {
        return false;
    }
    for at in 0..name.len() {
        if name[at] != other[at] {
            return false;
        }
    }
    true
}

/// Returns the position of the name in the list.
fn unindexed_place(names: &[Vec<u8>], name: &[u8]) -> Option<usize>
    ensures { result ≡ position (bytes_eq name.now) (texts names.now) }
{
    for at in 0..names.len() {
        if is_name(name, names[at].as_slice()) {
            return Some(at);
        }
    }
    None
}

/// Appends the name, unless there are `MAX_UNINDEXED` names already.
fn add_unindexed(names: &mut Vec<Vec<u8>>, alloc: Global, name: &[u8]) -> Result<(), AllocError>
    requires { vec_len names.old ≤ 8 }
    ensures added { OnOk result (texts names.new.items ≡ take 8 (texts names.old.items ++ name.now ∷ [])) }
    ensures err { OnErr result (names.new.items ≡ names.old.items) }
{
    if names.len() >= MAX_UNINDEXED {
        return Ok(());
    }
    names.push(Vec::from_slice(alloc, name)?)?;
    Ok(())
}

impl DeviceNames {
    /// Returns an empty list of names.
    pub(crate) fn new(alloc: Global) -> DeviceNames
        ensures { result ≡ [] }
    {
        DeviceNames {
            all: Names::new(alloc),
            unindexed: Vec::new(alloc),
        }
    }

    /// Returns whether the name is in the list.
    pub(crate) fn has(&self, name: &[u8]) -> bool
        ensures { result ≡ has_name name.now self.now }
    {
        self.all.has(name)
    }

    /// Returns the position of the name if it is one of the first `MAX_UNINDEXED`.
    #[inline(always)]
    pub(crate) fn find_unindexed(&self, name: &[u8]) -> Option<usize>
        ensures { IfSome result (λ at. position (bytes_eq name.now) self.now ≡ Some at) }
    {
        unindexed_place(self.unindexed.as_slice(), name)
    }

    /// Returns the position of the name.
    #[inline(always)]
    pub(crate) fn place(&self, name: &[u8]) -> Option<usize>
        ensures { result ≡ position (bytes_eq name.now) self.now }
    {
        let unindexed = self.find_unindexed(name);
        if unindexed.is_some() {
            return unindexed;
        }
        self.find_indexed(name)
    }

    /// Returns the position of the name, from the index of all names.
    ///
    /// perf: out of line, so that `place` is small enough to be inlined.
    #[cold]
    #[inline(never)]
    fn find_indexed(&self, name: &[u8]) -> Option<usize>
        ensures { result ≡ position (bytes_eq name.now) self.now }
    {
        self.all.place(name)
    }

    /// Appends the name if it is not in the list.
    pub(crate) fn add(&mut self, alloc: Global, name: &[u8]) -> Result<(), AllocError>
        ensures added { OnOk result (self.new ≡ (if has_name name.now self.old then self.old else self.old ++ name.now ∷ [])) }
    {
        if self.all.has(name) {
            return Ok(());
        }
        let kept = self.unindexed.len();
        add_unindexed(&mut self.unindexed, alloc, name)?;
        if let Err(error) = self.all.add(alloc, name) {
            self.unindexed.truncate(kept);
            return Err(error);
        }
        Ok(())
    }
}
