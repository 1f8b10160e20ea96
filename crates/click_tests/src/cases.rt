//! Cases that need a table of handlers, and the assertion that a case passes.

use crate::feeds::{ONE, SIXTEEN, driven};
use crate::links::both_links;
use crate::routers::{answers_reads, is_port};
use crate::seats::two_seats;
use crate::slots::{Slots, serves_slots};
use crate::views::two_views;
use crate::workers::{
    all_enter, all_meet, ends_when_refused, is_noted, makes_rounds, reads_across, write_fails,
};
use click_handlers::{Table, TakesTable, with_counted_table};
use std::alloc::Global;
use std::process::Abort;
use std::sync::atomic::AtomicU64;
use std::sync::{Arc, Wait};
use std::test::Fail;
use std::thread::Threads;

/// The name of a case, with its sizes if it has any.
#[derive(Clone, Copy, Debug, Drop)]
pub(crate) enum Case {
    TwoSeats,
    TwoViews,
    OneFeed,
    SixteenFeeds,
    BothLinks,
    Crossed,
    Rounds,
    Meeting,
    WriteFails,
    Noted,
    Refused,
    Crowd,
    Slots(Slots),
    RouterPort,
    Reads,
}

/// A case over the table that it is given. Its result is absent if it could not be set up.
#[derive(Drop)]
struct Trial {
    alloc: Global,
    case: Case,
}

impl TakesTable for Trial {
    type Out = Option<bool>;

    fn take<R: Threads + Wait + Sync>(self, rt: &R, table: Table) -> Option<bool> {
        let Trial { alloc, case } = self;
        match case {
            Case::TwoSeats => two_seats(rt, alloc, table),
            Case::TwoViews => two_views(rt, alloc, table),
            Case::OneFeed => driven(rt, alloc, table, &ONE),
            Case::SixteenFeeds => driven(rt, alloc, table, &SIXTEEN),
            Case::BothLinks => both_links(rt, alloc, table),
            Case::Crossed => reads_across(rt, alloc, table),
            Case::Rounds => makes_rounds(rt, alloc, table),
            Case::Meeting => all_meet(rt, alloc, table),
            Case::WriteFails => write_fails(rt, alloc, table),
            Case::Noted => is_noted(rt, alloc, table),
            Case::Refused => ends_when_refused(rt, alloc, table),
            Case::Crowd => all_enter(rt, alloc, table),
            Case::Slots(slots) => serves_slots(rt, alloc, table, slots),
            Case::RouterPort => is_port(alloc, table),
            Case::Reads => answers_reads(alloc, table),
        }
    }
}

/// Asserts that a case passes. The counter, if given, counts reads of a Counter's `count`.
pub(crate) fn assert_case<R: Threads + Wait + Sync + Abort>(
    rt: &R,
    alloc: Global,
    counter: Option<Arc<AtomicU64>>,
    case: Case,
) -> Result<(), Fail> {
    let passed = with_counted_table(rt, alloc, counter, Trial { alloc, case })?;
    assert!(rt; passed == Some(true), "{case:?}");
    Ok(())
}
