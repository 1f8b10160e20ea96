//! A router of one thread: the port of a session, and reads that reach the rows of its table.

ghost use Rattle.std.specs.Prelude.{◌≡◌, false, IfSome};
ghost use Rattle.click_router.specs.Polls.{is_poll};

use crate::cases::{Case, assert_case};
use crate::desks::{Asked, call_of};
use click_control::{Ended, Port, serve};
use click_packet::{Packet, StoredPacket};
use click_router::{Call, CompactReply, DeviceName, Handlers, Reply, Router, prepare};
use click_streams::{Reading, Writing};
use std::alloc::Global;
use std::sync::Arc;
use std::sync::atomic::{AtomicU64, Ordering};
use std::test::Fail;

/// Returns whether a router answers a read with this value, or fails with out of memory.
pub(crate) fn reads<T: Handlers>(
    alloc: Global,
    router: &mut Router<T>,
    name: &[u8],
    value: &[u8],
) -> Option<bool> {
    let call = call_of(alloc, Asked::Read(name)).ok()?;
    match router.step(alloc, &call) {
        Ok(Reply::Value(read)) => Some(read.as_slice() == value),
        _ => Some(false),
    }
}

const TEXT: &[u8] =
    b"FromDevice(a) -> c :: Counter -> s :: Switch(0) -> q :: Queue(4) -> ToDevice(b);";

const LINES: &[u8] =
    b"READ c.count\nCHECKREAD c.count\nWRITE s.switch 0\nWRITE s.switch 5\nREAD d.count\nREAD c.none\nWRITE c.count\nWRITE hotconfig x :: Foo;\nQUIT\n";

const WANTED: &[u8] =
    b"Click::ControlSocket/1.3\r\n200 Read handler 'c.count' OK\r\nDATA 1\r\n0200 Read handler 'c.count' OK\r\n200 Write handler 's.switch' OK\r\n520-Write handler 's.switch' error:\r\n520 out of range\r\n510 No element named 'd'\r\n511 No handler named 'c.none'\r\n530 Handler 'c.count' read-only\r\n520-Write handler 'hotconfig' error:\r\n520 13 UnknownClass at 1:6\r\n200 Goodbye!\r\n";

/// Returns whether a session over a router ends and writes what it has to.
fn serves<T: Handlers>(alloc: Global, router: &mut Router<T>) -> bool {
    let mut reader = Reading::new(LINES);
    let mut writer = Writing::new(Vec::new(alloc));
    let ended = serve(alloc, &mut reader, &mut writer, router, false);
    (ended == Ok(Ended::Quit)) & (writer.into_inner().as_slice() == WANTED)
}

fn arrive(alloc: Global) -> Option<Call>
    ensures { IfSome result (λ call. is_poll call ≡ false) }
{
    Some(Call::Arrive {
        device: DeviceName::copy_of(alloc, b"a").ok()?,
        packet: StoredPacket::of(alloc, &Packet::of(b"ab").ok()?).ok()?,
    })
}

fn transmit(alloc: Global) -> Option<Call>
    ensures { IfSome result (λ call. is_poll call ≡ false) }
{
    Some(Call::Transmit {
        device: DeviceName::copy_of(alloc, b"b").ok()?,
    })
}

/// Returns whether a packet that entered leaves, in a stored reply and in a reply.
fn sends<T: Handlers>(alloc: Global, router: &mut Router<T>) -> Option<bool> {
    for _ in 0..2 {
        router.ask(alloc, arrive(alloc)?).ok()?;
    }
    let first = Port::ask_stored(router, alloc, transmit(alloc)?).ok()?;
    let second = router.ask(alloc, transmit(alloc)?).ok()?;
    match (first.compact(), &second) {
        (CompactReply::Sent(kept), Reply::Sent(Some(packet))) => {
            Some(kept.bytes() == b"ab".as_slice() && packet.bytes() == b"ab".as_slice())
        }
        _ => Some(false),
    }
}

/// Returns whether a router serves a session and sends packets.
pub(crate) fn is_port<T: Handlers + Drop>(alloc: Global, table: T) -> Option<bool> {
    let mut router = Router::open(table, prepare(alloc, TEXT).ok()?);
    let served = serves(alloc, &mut router);
    Some(served & sends(alloc, &mut router)?)
}

/// Returns whether a router answers two reads of one handler, and one of another between them.
pub(crate) fn answers_reads<T: Handlers + Drop>(alloc: Global, table: T) -> Option<bool> {
    let text = b"Idle -> c :: Counter -> Discard;";
    let mut router = Router::open(table, prepare(alloc, text).ok()?);
    let first = reads(alloc, &mut router, b"c.count", b"0")?;
    let other = reads(alloc, &mut router, b"c.byte_count", b"0")?;
    let again = reads(alloc, &mut router, b"c.count", b"0")?;
    Some(first & other & again)
}

/// A router serves as the port of a session, and returns a sent packet in a stored reply and in a
/// reply.
#[test]
fn a_router_is_a_port(rt: HostRuntime) -> Result<(), Fail> {
    assert_case(&rt, rt.alloc(), None, Case::RouterPort)
}

/// A read calls the row of its handler: of three reads, the row that counts its calls counts two.
#[test]
fn a_read_asks_the_row(rt: HostRuntime) -> Result<(), Fail> {
    let counter = Arc::new(rt.alloc(), AtomicU64::new(0))?;
    let seen = counter.clone()?;
    assert_case(&rt, rt.alloc(), Some(counter), Case::Reads)?;
    assert_eq!(rt; seen.load(Ordering::Relaxed), 2);
    Ok(())
}
