//! The trail: a list that stores its items or only has them as ghost state.

ghost use Rattle.std.specs.Prelude.{◌≡◌, ◌++◌, ◌∷◌, [], true, false, OnOk};

use std::alloc::{AllocError, Global};
use std::marker::Model;

/// A list that is ghost state only. It takes no memory, and adding an item does nothing at run
/// time.
pub use http_server::Log as GhostList;

/// A list that only grows. Its items are stored at run time if `keeps` is true, and are ghost state
/// only if it is false.
///
/// In both cases contracts see every item that was added. A trail that does not store its items is
/// a few bytes at run time, and adding an item does not allocate.
#[derive(Drop)]
pub struct Trail<T> {
    log: GhostList<T, ()>,
    keeps: bool,
    kept: Vec<T>,
}

impl<T> Model for Trail<T> {
    ghost use Rattle.std.specs.Prelude.{◌≡◌, [], map, true, false, nat_lt, vec_len, vec_capacity};
    ghost use Rattle.click_desk.specs.TrailState.{TrailState};

    ghost Value = { TrailState T };

    ghost view = { λ t. record { keeps = t.keeps; ready = nat_lt (vec_len t.kept) (vec_capacity t.kept); items = map (λ p. p.0) t.log.items } };

    ghost invariant = { λ t. (t.keeps ≡ true → t.kept.items ≡ map (λ p. p.0) t.log.items) × (t.keeps ≡ false → t.kept.items ≡ []) };
}

impl<T> Trail<T> {
    /// Makes a trail without items, which stores its items or does not.
    pub fn new(alloc: Global, keeps: bool) -> Trail<T>
        ensures { (result.keeps ≡ keeps) × (result.items ≡ []) }
    {
        Trail {
            log: GhostList::new(),
            keeps,
            kept: Vec::new(alloc),
        }
    }

    /// Returns whether the items are stored.
    pub fn keeps(&self) -> bool
        ensures { result ≡ self.now.keeps }
    {
        self.keeps
    }

    /// Returns the items if they are stored, otherwise an empty slice.
    pub fn as_slice(&self) -> &[T]
        ensures kept { self.now.keeps ≡ true → result.now ≡ self.now.items }
        ensures none { self.now.keeps ≡ false → result.now ≡ [] }
    {
        self.kept.as_slice()
    }

    /// Reserves room for one more item in a trail that stores its items. Fails with out of memory.
    pub fn reserve(&mut self) -> Result<(), AllocError>
        requires { self.old.keeps ≡ true }
        ensures same { (self.new.keeps ≡ self.old.keeps) × (self.new.items ≡ self.old.items) }
        ensures ready { OnOk result (self.new.ready ≡ true) }
    {
        self.kept.reserve(1)
    }

    /// Appends an item to a trail that stores its items. Never allocates: room for it was reserved.
    #[inline(always)]
    pub fn add(&mut self, item: T)
        requires keeps { self.old.keeps ≡ true }
        requires ready { self.old.ready ≡ true }
        ensures keeps { self.new.keeps ≡ self.old.keeps }
        ensures items { self.new.items ≡ self.old.items ++ item ∷ [] }
    {
        self.log = self.log.and(&item, &());
        self.kept.push_reserved(item);
    }

    /// Appends an item to a trail that does not store its items. Does nothing at run time.
    #[inline(always)]
    pub fn note(&mut self, item: &T)
        requires { self.old.keeps ≡ false }
        ensures keeps { self.new.keeps ≡ self.old.keeps }
        ensures items { self.new.items ≡ self.old.items ++ item.now ∷ [] }
    {
        self.log = self.log.and(item, &());
    }
}
