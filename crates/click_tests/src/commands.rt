//! Commands that a session assembles from pieces, and the text of its faults.

use click_control::{AskFault, Command, ServeFault, Session};
use click_streams::Failed;
use std::alloc::{AllocError, Global};
use std::test::Fail;

/// Feeds a session in pieces of a size. Returns whether a command came.
fn feed_in_pieces(
    alloc: Global,
    session: &mut Session,
    input: &[u8],
    size: usize,
) -> Result<bool, AllocError> {
    let mut came = false;
    for piece in input.chunks(size.max(1)) {
        session.feed(piece)?;
        if session.next(alloc)?.is_some() {
            came = true;
        }
    }
    Ok(came)
}

/// A command with the largest payload is returned after its last byte, and not before, whatever the
/// size of the pieces.
#[test]
fn takes_a_large_payload(rt: HostRuntime) -> Result<(), Fail> {
    let mut input = Vec::from_slice(rt.alloc(), b"WRITEDATA c.two 1048576\r\n")?;
    input.extend_from_slice(&vec![in rt.alloc(); b'\n'; 1_048_575]?)?;
    for size in [1, 7, 4096, 2_000_000] {
        let mut session = Session::new(rt.alloc());
        assert!(rt; !feed_in_pieces(rt.alloc(), &mut session, &input, size)?);
        session.feed(b"xQUIT\n")?;
        let Some(Command::Write { handler, text }) = session.next(rt.alloc())? else {
            panic!(rt; "another command")
        };
        assert_eq!(rt; handler.as_slice(), b"c.two".as_slice());
        assert_eq!(rt; text.len(), 1_048_576);
        assert!(rt; text.as_slice().ends_with(b"\n\nx"));
        assert!(rt; matches!(session.next(rt.alloc())?, Some(Command::Quit)));
    }
    Ok(())
}

/// The faults of a session are printed as their texts.
#[test]
fn prints_faults(rt: HostRuntime) -> Result<(), Fail> {
    let alloc = rt.alloc();
    let failed = Failed.to_string(alloc)?;
    assert_eq!(rt; failed.as_str(), "a read or a write failed");
    for (fault, want) in [
        (ServeFault::ReadFailed, "a read failed"),
        (ServeFault::WriteFailed, "a write failed"),
        (ServeFault::NoMemory, "out of memory"),
    ] {
        let printed = fault.to_string(alloc)?;
        assert_eq!(rt; printed.as_str(), want);
    }
    for (fault, want) in [
        (AskFault::NoMemory, "out of memory"),
        (AskFault::HistoryFull, "history full"),
    ] {
        let printed = fault.to_string(alloc)?;
        assert_eq!(rt; printed.as_str(), want);
    }
    Ok(())
}
