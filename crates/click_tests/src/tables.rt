//! Lists of rows of handlers, of which a table is made or not.

use click_handlers::{ReadRow, Table, TakesRows, WriteRow, with_rows};
use std::sync::Wait;
use std::test::Fail;
use std::thread::Threads;

/// A change of a list of rows, by their indexes. `Before` puts the first row in once more before a
/// row, and `InsteadOf` instead of it.
#[derive(Clone, Copy)]
enum Change {
    Nothing,
    Exchanged(usize, usize),
    Missing(usize),
    LastFirst,
    Empty,
    Before(usize),
    InsteadOf(usize),
}

use Change::{Before, Empty, Exchanged, InsteadOf, LastFirst, Missing, Nothing};

/// The changes of the reads and of the writes, what they are, and whether a table is made of them.
type Case = (Change, Change, &'static str, bool);

const CASES: &[Case] = &[
    (Nothing, Nothing, "the rows, unchanged", true),
    (
        Exchanged(0, 4),
        Nothing,
        "reads of two classes by one name, exchanged",
        false,
    ),
    (
        Exchanged(8, 9),
        Nothing,
        "reads of one class, exchanged",
        false,
    ),
    (Missing(0), Nothing, "the first read missing", false),
    (Missing(30), Nothing, "the last read missing", false),
    (LastFirst, Nothing, "the last read first", false),
    (Empty, Nothing, "no reads", false),
    (
        Nothing,
        Exchanged(2, 5),
        "writes of two classes by one name, exchanged",
        false,
    ),
    (
        Nothing,
        Exchanged(25, 26),
        "writes of one class, exchanged",
        false,
    ),
    (Nothing, Missing(0), "the first write missing", false),
    (Nothing, Missing(26), "the last write missing", false),
    (Nothing, LastFirst, "the last write first", false),
    (Nothing, Empty, "no writes", false),
    (Empty, Empty, "no rows", false),
    (
        InsteadOf(0),
        InsteadOf(0),
        "both first rows made again, in their own places",
        true,
    ),
    (
        Before(0),
        Nothing,
        "a read twice, next to all others",
        false,
    ),
    (
        Before(31),
        Nothing,
        "the first read again at the end",
        false,
    ),
    (
        InsteadOf(1),
        Nothing,
        "a read twice, in the place of another of its class",
        false,
    ),
    (
        InsteadOf(4),
        Nothing,
        "a read twice, in the place of another class's of its name",
        false,
    ),
    (
        InsteadOf(30),
        Nothing,
        "a read twice, in the place of the last",
        false,
    ),
    (
        Nothing,
        Before(0),
        "a write twice, next to all others",
        false,
    ),
    (
        Nothing,
        Before(27),
        "the first write again at the end",
        false,
    ),
    (
        Nothing,
        InsteadOf(1),
        "a write twice, in the place of another of its class",
        false,
    ),
    (
        Nothing,
        InsteadOf(3),
        "a write twice, in the place of another class's of its name",
        false,
    ),
    (
        Nothing,
        InsteadOf(26),
        "a write twice, in the place of the last",
        false,
    ),
    (
        Before(0),
        Before(0),
        "a read and a write twice, next to all others",
        false,
    ),
];

/// Returns the rows with the change, for which their first row is given once more. Fails if the
/// rows have no such index.
fn changed<T: Drop>(rows: Vec<T>, first: T, change: Change) -> Result<Vec<T>, Fail> {
    let mut rows = rows;
    match change {
        Nothing => {}
        Exchanged(one, other) if one < rows.len() && other < rows.len() => rows.swap(one, other),
        Missing(at) if at < rows.len() => {
            let _missing = rows.remove(at);
        }
        LastFirst => {
            let last = rows.pop().ok_or("a row")?;
            rows.insert(0, last)?;
        }
        Empty => rows.clear(),
        Before(at) if at <= rows.len() => rows.insert(at, first)?,
        InsteadOf(at) if at < rows.len() => rows[at] = first,
        Exchanged(..) | Missing(_) | Before(_) | InsteadOf(_) => return Err(Fail::from("an index")),
    }
    Ok(rows)
}

/// A case over the rows that it is given.
#[derive(Drop)]
struct Remade {
    case: Case,
}

impl TakesRows for Remade {
    type Out = Result<bool, Fail>;

    fn take_rows<R: Threads + Wait + Sync>(
        self,
        _rt: &R,
        reads: Vec<ReadRow>,
        writes: Vec<WriteRow>,
        first: (ReadRow, WriteRow),
    ) -> Result<bool, Fail> {
        let reads = changed(reads, first.0, self.case.0)?;
        let writes = changed(writes, first.1, self.case.1)?;
        Ok(Table::new(reads, writes).is_ok())
    }
}

/// A table is made of all rows in order, and is refused if a row of the reads or the writes is
/// missing, repeated or out of order.
#[test]
fn tables_are_made_of_all_rows_in_order(rt: HostRuntime) -> Result<(), Fail> {
    for case in CASES {
        let (_, _, change, want) = *case;
        let is_made = with_rows(&rt, rt.alloc(), None, Remade { case: *case })??;
        assert_eq!(&rt; is_made, want, "{change}");
    }
    Ok(())
}
