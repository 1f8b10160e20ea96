//! The table of a StaticIPLookup, prepared for lookups.

ghost use Rattle.std.specs.Prelude.{◌≡◌, ℕ, ◌<◌, ◌≤◌, ◌+◌, ◌-◌, ◌^◌, ◌++◌, List, length, map, option_map, OnOk, IfOk};
ghost use Rattle.std.specs.List.{All, filter};
ghost use Rattle.click_classes.specs.Routes.{route};
ghost use Rattle.click_classes.specs.kept.Rows.{IsAddress, word, IsShort, has_len, longest_first, IsReady, entry_of, first_found};
ghost use Rattle.click_classes.specs.kept.Ranges.{AreRanges, HaveEntries};
ghost use Rattle.click_classes.specs.declared.routes.Row.{Row};

use crate::values::entry::Entry;
use click_base::sequence::Sequence;
use std::alloc::{AllocError, Global};
use std::marker::Model;

/// The maximum number of rows that are searched one by one.
///
/// perf: a scan takes 7 instructions for each row (bench/RESULTS.md), so up to this number at most
/// about as many as a binary search among the ranges.
const MAX_SCANNED: usize = 16;

/// The number after the number of the last address.
const ADDRESSES: u64 = 1 << 32;

/// An entry with its prefix as two numbers.
///
/// The prefix covers an address if the address, as a number, is `network` in each bit of the mask.
#[derive(Clone, Copy, Debug, PartialEq, Eq)]
struct Row {
    mask: u32,
    network: u32,
    entry: Entry,
}

/// A range of addresses that have the same entry.
///
/// It reaches from the address with the number `start` to the address before the next range.
#[derive(Clone, Copy, Debug, PartialEq, Eq)]
struct AddressRange {
    start: u32,
    entry: Option<Entry>,
}

/// The entry of a range, and the number after its last address.
#[derive(Clone, Copy, Debug, PartialEq, Eq)]
struct RangeEnd {
    entry: Option<Entry>,
    end: u64,
}

/// The entries as written, and a row for each entry, with the longest prefixes first.
///
/// A table of more than `MAX_SCANNED` rows also has the ranges of the addresses, in ascending order.
#[derive(Drop)]
pub struct Routes {
    entries: Sequence<Entry>,
    rows: Vec<Row>,
    ranges: Vec<AddressRange>,
}

impl Model for Routes {
    ghost use Rattle.std.specs.Prelude.{List};
    ghost use Rattle.click_classes.specs.declared.values.entry.Entry.{Entry};
    ghost use Rattle.click_classes.specs.kept.Ranges.{AreSound};

    ghost Value = { List Entry };

    ghost view = { λ r. r.entries };

    ghost invariant = { λ r. AreSound r.entries r.rows.items r.ranges.items };
}

/// Returns the number in which exactly the first `len` of 32 bits are set.
fn mask_of(len: u8) -> u32
    requires { len ≤ 32 }
    ensures { result ≡ 2 ^ 32 - 2 ^ (32 - len) }
{
    if len == 0 { 0 } else { u32::MAX << (32 - len) }
}

/// Returns an address as a number.
fn word_of(address: [u8; 4]) -> u32
    ensures value { result ≡ word address }
    ensures address { IsAddress address }
{
    let [first, second, third, fourth] = address;
    u32::from_be_bytes([first, second, third, fourth])
}

/// Returns the row of an entry.
fn row_of(entry: Entry) -> Row
    requires { entry.prefix.len ≤ 32 }
    ensures entry { result.entry ≡ entry }
    ensures ready { IsReady result }
{
    Row {
        mask: mask_of(entry.prefix.len),
        network: word_of(entry.prefix.network),
        entry,
    }
}

/// Appends the rows of the entries whose prefixes have this length.
fn push_rows(rows: &mut Vec<Row>, entries: &[Entry], len: u8) -> Result<(), AllocError>
    requires short { All IsShort entries.now }
    requires ready { All IsReady rows.old.items }
    ensures entries { OnOk result (map entry_of rows.new.items ≡ map entry_of rows.old.items ++ filter (has_len len) entries.now) }
    ensures ready { OnOk result (All IsReady rows.new.items) }
{
    for entry in entries {
        if entry.prefix.len == len {
            rows.push(row_of(*entry))?;
        }
    }
    Ok(())
}

/// Returns the rows of the entries, with the longest prefixes first.
///
/// Entries with prefixes of the same length keep their order.
fn rows_of(alloc: Global, entries: &[Entry]) -> Result<Vec<Row>, AllocError>
    requires { All IsShort entries.now }
    ensures entries { IfOk result (λ rows. map entry_of rows.items ≡ longest_first 33 entries.now) }
    ensures ready { IfOk result (λ rows. All IsReady rows.items) }
{
    let mut rows = Vec::new(alloc);
    let mut len = 33;
    while len > 0 {
        len -= 1;
        push_rows(&mut rows, entries, len)?;
    }
    Ok(rows)
}

/// Returns the first row whose prefix covers the address.
#[inline(always)]
fn first_found(rows: &[Row], word: u32) -> Option<&Row>
    ensures { option_map (λ row. row.now.entry) result ≡ first_found rows.now word }
{
    for row in rows {
        if word & row.mask == row.network {
            return Some(row);
        }
    }
    None
}

/// Returns the entry of the first row whose prefix covers the address.
#[inline(always)]
fn entry_at(rows: &[Row], word: u32) -> Option<Entry>
    ensures { result ≡ first_found rows.now word }
{
    let row = first_found(rows, word)?;
    Some(row.entry)
}

/// Returns the number after the last that has the bits of the row's network.
fn end_of(row: &Row) -> u64
    requires { IsReady row.now }
    ensures { result ≡ row.now.network + (2 ^ 32 - row.now.mask) }
{
    u64::from(row.network) + (ADDRESSES - u64::from(row.mask))
}

/// Returns the row's network if it is after `begin` and before `next`, and otherwise `next`.
fn network_before(row: &Row, begin: u32, next: u64) -> u64
    requires { begin < next }
    ensures above { begin < result }
    ensures within { result ≤ next }
    ensures network { begin < row.now.network → result ≤ row.now.network }
{
    if begin < row.network {
        next.min(u64::from(row.network))
    } else {
        next
    }
}

/// Returns the entry and the end of the range that begins at `start`.
///
/// A range ends with the prefix that covers it, or before the network of a longer one.
fn range_end(rows: &[Row], start: u32) -> RangeEnd
    requires { All IsReady rows.now }
    ensures entry { result.entry ≡ first_found rows.now start }
    ensures above { start < result.end }
    ensures within { result.end ≤ 2 ^ 32 }
    ensures same { (w : ℕ) → start ≤ w → w < result.end → first_found rows.now w ≡ first_found rows.now start }
{
    let mut end = ADDRESSES;
    for row in rows {
        if start & row.mask == row.network {
            return RangeEnd {
                entry: Some(row.entry),
                end: end.min(end_of(row)),
            };
        }
        end = network_before(row, start, end);
    }
    RangeEnd { entry: None, end }
}

/// Returns the ranges of the addresses in ascending order, or none for at most `MAX_SCANNED` rows.
///
/// perf: this takes time in the square of the number of rows (bench/RESULTS.md, "Making an
/// element"). A table is prepared once for each configuration, and outside the router's steps.
fn ranges_of(alloc: Global, rows: &[Row]) -> Result<Vec<AddressRange>, AllocError>
    requires { All IsReady rows.now }
    ensures ranges { IfOk result (λ ranges. 0 < length ranges.items → AreRanges ranges.items) }
    ensures entries { IfOk result (λ ranges. 0 < length ranges.items → HaveEntries rows.now (2 ^ 32) ranges.items) }
{
    let mut ranges = Vec::new(alloc);
    if rows.len() <= MAX_SCANNED {
        return Ok(ranges);
    }
    let mut begin = 0;
    while begin < ADDRESSES {
        let start = begin as u32;
        let RangeEnd { entry, end } = range_end(rows, start);
        ranges.push(AddressRange { start, entry })?;
        begin = end;
    }
    Ok(ranges)
}

/// Returns the entry of the range that has the address.
#[inline(never)]
fn range_entry(ranges: &[AddressRange], word: u32) -> Option<Entry>
    requires some { 0 < length ranges.now }
    requires ranges { AreRanges ranges.now }
    ensures { (rows : List Row) → HaveEntries rows (2 ^ 32) ranges.now → result ≡ first_found rows word }
{
    let after = ranges.partition_point(|range| range.start <= word);
    ranges[after - 1].entry
}

impl Routes {
    /// Returns the table with these entries, or fails with out of memory.
    pub(crate) fn of(alloc: Global, entries: Sequence<Entry>) -> Result<Routes, AllocError>
        requires { All IsShort entries }
        ensures { IfOk result (λ routes. routes ≡ entries) }
    {
        let rows = rows_of(alloc, entries.as_slice())?;
        let ranges = ranges_of(alloc, rows.as_slice())?;
        Ok(Routes {
            entries,
            rows,
            ranges,
        })
    }

    /// Returns the entries, as written.
    pub(crate) fn as_slice(&self) -> &[Entry]
        ensures { result.now ≡ self.now }
    {
        self.entries.as_slice()
    }

    /// Returns the number of entries.
    pub fn len(&self) -> usize
        ensures { result ≡ length self.now }
    {
        self.entries.len()
    }

    /// Returns the entry with the longest prefix that covers the address.
    #[inline(always)]
    pub fn find(&self, address: [u8; 4]) -> Option<Entry>
        ensures { result ≡ route self.now address }
    {
        let word = word_of(address);
        if self.ranges.is_empty() {
            return entry_at(self.rows.as_slice(), word);
        }
        range_entry(self.ranges.as_slice(), word)
    }
}
