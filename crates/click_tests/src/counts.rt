//! The greatest counts.

use click_classes::State;
use click_packet::Packet;
use std::test::Fail;

/// Both counts of a Counter stop at 2^64 - 1.
#[test]
fn counts_no_further(rt: HostRuntime) -> Result<(), Fail> {
    let mut packet = Packet::of(b"cdef")?;
    let mut full = State::Counter {
        count: u64::MAX,
        byte_count: u64::MAX - 1,
    };
    let _passed = full.act(&1, 0, &mut packet);
    let stopped = matches!(
        &full,
        State::Counter {
            count: u64::MAX,
            byte_count: u64::MAX,
        }
    );
    assert!(rt; stopped);
    Ok(())
}
