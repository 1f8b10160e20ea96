//! Views of a desk: handler checks that never block.

ghost use Rattle.std.specs.Prelude.{◌≡◌, ℕ, List, map, IfOk, OnErr};
ghost use Rattle.click_router.specs.One.{Listing, IsListing, check};
ghost use Rattle.click_views.specs.Showing.{BeginsWith, IsLast};

use click_router::{Access, Check, Install};
use std::alloc::{AllocError, Global};
use std::marker::Model;

/// A token that proves which configurations of a desk were installed up to a seat's latest call. It
/// allocates nothing.
pub type Notice = click_views::Notice<Install>;

/// A handle that checks handlers against the installed configurations of a desk, from any thread.
///
/// It answers for the last configuration that it knows of. That is the opening one at first. After
/// it learns a notice, it is the last one of the notice or a later one, and never again an older
/// one. An install signal can also move it on, but carries no guarantee.
#[derive(Drop)]
pub struct View {
    pub(crate) shown: click_views::View<Install>,
}

impl Model for View {
    ghost use Rattle.std.specs.Prelude.{ℕ, List};
    ghost use Rattle.click_views.specs.Showing.{Showing};

    ghost Value = { Showing (List ℕ) };

    ghost view = { λ v. v.shown };
}

impl View {
    /// Moves on to the configurations that the notice covers, if it does not know them yet. The
    /// notice must be of the same desk. Never allocates, never blocks and never fails.
    pub fn learn(&mut self, notice: &Notice)
        requires { notice.now.board ≡ self.old.board }
        ensures board { self.new.board ≡ self.old.board }
        ensures later { BeginsWith self.new.list self.old.list }
        ensures told { BeginsWith self.new.list notice.now.list }
    {
        self.shown.learn(notice);
    }

    /// Returns whether a handler can be read in the last configuration that the view knows of.
    /// Never allocates and never blocks.
    pub fn check_read(&mut self, name: &[u8]) -> Check
        ensures board { self.new.board ≡ self.old.board }
        ensures later { BeginsWith self.new.list self.old.list }
        ensures answer { (text : List ℕ) × (l : Listing) × IsLast self.new.list text × IsListing text l × (result ≡ check l Access.Read name.now) }
    {
        self.shown.refresh();
        self.shown.install().check(Access::Read, name)
    }

    /// Returns whether a handler can be written in the last configuration that the view knows of.
    /// Never allocates and never blocks.
    pub fn check_write(&mut self, name: &[u8]) -> Check
        ensures board { self.new.board ≡ self.old.board }
        ensures later { BeginsWith self.new.list self.old.list }
        ensures answer { (text : List ℕ) × (l : Listing) × IsLast self.new.list text × IsListing text l × (result ≡ check l Access.Write name.now) }
    {
        self.shown.refresh();
        self.shown.install().check(Access::Write, name)
    }

    /// Returns the names of the elements of the last configuration that the view knows of, in flat
    /// order. Never blocks. If it fails with out of memory, the view is unchanged.
    pub fn names(&mut self, alloc: Global) -> Result<Vec<Vec<u8>>, AllocError>
        ensures board { self.new.board ≡ self.old.board }
        ensures later { BeginsWith self.new.list self.old.list }
        ensures names { IfOk result (λ names. (text : List ℕ) × (l : Listing) × IsLast self.new.list text × IsListing text l × (map (λ n. n.items) names.items ≡ l.names)) }
        ensures err { OnErr result (self.new ≡ self.old) }
    {
        self.shown.refresh_with(|install| install.names(alloc))
    }
}
