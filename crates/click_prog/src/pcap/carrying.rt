//! Sending the packets of a capture through a router, and writing those that leave it as a capture.

ghost use Rattle.std.specs.Prelude.{◌≡◌, ◌⊎◌, [], ◌≤◌, length, false, true, OnOk, OnErr};
ghost use Rattle.click_capture.specs.Captures.{header_bytes, record_bytes, whole};
ghost use Rattle.click_streams.specs.Peers.{Input as AnInput, Output as AnOutput, HasWritten, WroteFront};
ghost use Rattle.click_prog.specs.Reading.{Took, IsAtHand};
ghost use Rattle.click_prog.specs.Buffers.{taken};
ghost use Rattle.click_prog.specs.Passages.{PassageState, went};
ghost use Rattle.click_prog.specs.Carrying.{widened_header, header_carry_fault, send_carry_fault, SendsAll, Passes, Carried, Ends, CarriesBehind, CarriesThrough};

use crate::pcap::buffered::{BUFFER_BYTES, Buffered, SinkStart};
use crate::pcap::capture_router::CaptureRouter;
use crate::pcap::carry_fault::{CarryFault, SendFault};
use crate::pcap::reading::{
    HeaderReadFault, NextRecord, RecordReadFault, read_header, read_record,
};
use crate::pcap::ready::{Ready, is_complete};
use crate::pcap::tally::Tally;
use click_capture::{
    HEADER_LEN, Header, MAX_RECORD_BYTES, Order, RECORD_HEADER_LEN, RecordHeader, Time,
    header_bytes, record_head_bytes,
};
use click_packet::{Packet, TooLong};
use click_streams::{Failed, Sink, Source, write_all};
use std::alloc::Global;
use std::marker::Brand;

/// The minimum snap length of a written capture, in bytes: that of the longest packet. A router may
/// make packets longer.
const MIN_SNAP_BYTES: u32 = 1_600;

/// The maximum number of times that the sink is asked after one packet has entered.
const MAX_PULLS: u32 = 1_048_576;

/// Returns the header to write for one that was read: the same, but its snap length has room for
/// every packet.
fn widened_header(header: &Header) -> Header
    ensures { result ≡ widened_header header.now }
{
    let mut widened_header = *header;
    if widened_header.snap != 0 && widened_header.snap < MIN_SNAP_BYTES {
        widened_header.snap = MIN_SNAP_BYTES;
    }
    widened_header
}

/// Sends the packets of a capture through the router. Returns the sink, and the fault if the run
/// stopped early.
///
/// Each packet enters, each task runs once, and then the packets that the sink returns are written,
/// with the time of the packet that entered. A packet of more than 1,600 bytes is left out. The
/// buffer is written before a read that may block, and at the end, even if the run stops early. The
/// tally is kept up to date in both cases.
pub fn carry<I: Source + Ready, O: Sink>(
    alloc: Global,
    passage: &mut CaptureRouter,
    reader: &mut I,
    sink: O,
    tally: &mut Tally,
) -> (O, Result<(), CarryFault>)
    requires { (O.output sink).failed ≡ false }
    ensures { CarriesThrough (I.input reader.old) (I.input reader.new) (O.output sink) (O.output result.0) passage.old passage.new result.1 }
{
    carry_as::<_, _, Brand>(alloc, passage, reader, sink, tally)
}

/// Sends the packets of a capture through the router as `carry` does. The type `B` stands for what
/// the sink held before.
///
/// proof: as a type it is a constant, which the invariant of `Buffered` can mention.
fn carry_as<I: Source + Ready, O: Sink, B: SinkStart>(
    alloc: Global,
    passage: &mut CaptureRouter,
    reader: &mut I,
    sink: O,
    tally: &mut Tally,
) -> (O, Result<(), CarryFault>)
    requires good { (O.output sink).failed ≡ false }
    requires start { B.held ≡ (O.output sink).contents }
    ensures { CarriesThrough (I.input reader.old) (I.input reader.new) (O.output sink) (O.output result.0) passage.old passage.new result.1 }
{
    let header = match read_header(reader) {
        Ok(header) => header,
        Err(why) => return (sink, Err(header_carry_fault(why))),
    };
    let Ok(front) = header_bytes(alloc, &widened_header(&header)) else {
        return (sink, Err(CarryFault::NoMemory));
    };
    let Ok(held) = Vec::with_capacity(alloc, BUFFER_BYTES) else {
        return (sink, Err(CarryFault::NoMemory));
    };
    let mut writer: Buffered<O, B> = Buffered::new(held, sink);
    let ended = carry_behind(alloc, passage, &header, &front, reader, &mut writer, tally);
    let flushed = writer.flush();
    let sink = writer.into_sink();
    match flushed {
        Ok(()) => (sink, ended),
        Err(Failed) => (sink, Err(CarryFault::WriteFailed)),
    }
}

/// Converts the reason why no header was read.
fn header_carry_fault(why: HeaderReadFault) -> CarryFault
    ensures { result ≡ header_carry_fault why }
{
    match why {
        HeaderReadFault::ReadFailed => CarryFault::ReadFailed,
        HeaderReadFault::Short(count) => CarryFault::ShortHeader { at: count as u64 },
        HeaderReadFault::Fault(fault) => CarryFault::Header(fault),
    }
}

/// Writes the header of the written capture, and carries the records.
fn carry_behind<I: Source + Ready, O: Sink, B: SinkStart>(
    alloc: Global,
    passage: &mut CaptureRouter,
    header: &Header,
    front: &[u8],
    reader: &mut I,
    writer: &mut Buffered<O, B>,
    tally: &mut Tally,
) -> Result<(), CarryFault>
    requires { front.now ≡ header_bytes (widened_header header.now) }
    ensures { (had : AnInput) → Took had (I.input reader.old) (header_bytes header.now)
        → CarriesBehind header.now had (I.input reader.new) (taken O.output writer.old) (taken O.output writer.new) passage.old passage.new result }
{
    if let Err(Failed) = write_all(writer, front) {
        return Err(CarryFault::WriteFailed);
    }
    carry_records(alloc, passage, header, reader, writer, tally)
}

/// Carries the records. Allocates 262,144 bytes for a packet, whatever the capture claims.
fn carry_records<I: Source + Ready, O: Sink, B: SinkStart>(
    alloc: Global,
    passage: &mut CaptureRouter,
    header: &Header,
    reader: &mut I,
    writer: &mut Buffered<O, B>,
    tally: &mut Tally,
) -> Result<(), CarryFault>
    ensures { (had : AnInput) (held : AnOutput) (first : PassageState)
        → Carried header.now had (I.input reader.old) held (taken O.output writer.old) first passage.old []
        → Ends header.now had (I.input reader.new) held (taken O.output writer.new) first passage.new result }
{
    let Ok(mut packet) = vec![in alloc; 0u8; MAX_RECORD_BYTES as usize] else {
        return Err(CarryFault::NoMemory);
    };
    let mut sent = Packet::empty();
    carry_each(
        passage,
        header,
        packet.as_mut_slice(),
        &mut sent,
        reader,
        writer,
        tally,
    )
}

/// Carries the records, each of which is read into `piece` in its turn. Each packet that leaves is
/// copied into `sent`.
fn carry_each<I: Source + Ready, O: Sink, B: SinkStart>(
    passage: &mut CaptureRouter,
    header: &Header,
    piece: &mut [u8],
    sent: &mut Packet,
    reader: &mut I,
    writer: &mut Buffered<O, B>,
    tally: &mut Tally,
) -> Result<(), CarryFault>
    requires { length piece.old ≡ 262144 }
    ensures { (had : AnInput) (held : AnOutput) (first : PassageState)
        → Carried header.now had (I.input reader.old) held (taken O.output writer.old) first passage.old []
        → Ends header.now had (I.input reader.new) held (taken O.output writer.new) first passage.new result }
{
    let mut at = HEADER_LEN as u64;
    for before in 0..u64::MAX {
        let number = before + 1;
        if let Err(Failed) = flush_before_wait(header, reader, writer) {
            return Err(CarryFault::WriteFailed);
        }
        let head = match read_record(reader, header, piece) {
            Ok(NextRecord::End) => return Ok(()),
            Ok(NextRecord::Packet(head)) => head,
            Err(RecordReadFault::ReadFailed) => return Err(CarryFault::ReadFailed),
            Err(RecordReadFault::Cut) => return Err(CarryFault::Cut { number, at }),
            Err(RecordReadFault::TooLong(fault)) => return Err(CarryFault::TooLong {
                number,
                at,
                fault,
            }),
        };
        tally.read = number;
        let kept = head.kept as usize;
        if let Err(why) = carry_packet(
            passage,
            header,
            &head,
            &piece[..kept],
            sent,
            writer,
            tally,
        ) {
            return Err(send_carry_fault(why, number, at));
        }
        at = at.saturating_add((RECORD_HEADER_LEN + kept) as u64);
    }
    // No input has 2^64 - 1 records.
    Err(CarryFault::Uncounted)
}

/// Writes the buffer, unless the next record can be read without blocking.
fn flush_before_wait<I: Ready, O: Sink, B: SinkStart>(
    header: &Header,
    reader: &I,
    writer: &mut Buffered<O, B>,
) -> Result<(), Failed>
    ensures ok { OnOk result (HasWritten (taken O.output writer.old) (taken O.output writer.new) [] false) }
    ensures none_waits { OnOk result ((writer.new.held ≡ []) ⊎ IsAtHand header.now (I.at_hand reader.now)) }
    ensures err { OnErr result (HasWritten (taken O.output writer.old) (taken O.output writer.new) [] true) }
{
    if is_complete(header, reader.ready()) {
        return Ok(());
    }
    writer.flush()
}

/// Converts the reason why the packets after a record's packet were not all written.
fn send_carry_fault(why: SendFault, number: u64, at: u64) -> CarryFault
    ensures { result ≡ send_carry_fault why number at }
{
    match why {
        SendFault::GivesOn => CarryFault::GivesOn { number, at },
        SendFault::WriteFailed => CarryFault::WriteFailed,
    }
}

/// Carries the packet of a record.
fn carry_packet<O: Sink>(
    passage: &mut CaptureRouter,
    header: &Header,
    head: &RecordHeader,
    bytes: &[u8],
    sent: &mut Packet,
    writer: &mut O,
    tally: &mut Tally,
) -> Result<(), SendFault>
    ensures { Passes header.now (record { time = head.now.time; wire = head.now.wire; bytes = bytes.now }) passage.old passage.new (O.output writer.old) (O.output writer.new) result }
{
    if let Err(TooLong) = passage.enter(bytes) {
        tally.left_out = tally.left_out.saturating_add(1);
        return Ok(());
    }
    tally.entered = tally.entered.saturating_add(1);
    send_all(passage, header, head.time, sent, writer, tally)
}

/// Writes the packets that the sink returns until it has none, as records of this time. Each is
/// copied into `sent` in its turn.
fn send_all<O: Sink>(
    passage: &mut CaptureRouter,
    header: &Header,
    time: Time,
    sent: &mut Packet,
    writer: &mut O,
    tally: &mut Tally,
) -> Result<(), SendFault>
    ensures sends { SendsAll header.now time passage.old passage.new (O.output writer.old) (O.output writer.new) result }
    ensures ends { passage.new ≡ went passage.old passage.new.router }
{
    for asked in 0..MAX_PULLS {
        if !passage.send_into(sent) {
            return Ok(());
        }
        if let Err(Failed) = write_record(writer, header.order, time, sent.bytes()) {
            return Err(SendFault::WriteFailed);
        }
        tally.written = tally.written.saturating_add(1);
    }
    Err(SendFault::GivesOn)
}

/// Writes a packet that was kept whole as a record: its head, and then its bytes.
///
/// After a failure a prefix of the record is written.
fn write_record<O: Sink>(
    writer: &mut O,
    order: Order,
    time: Time,
    packet: &[u8],
) -> Result<(), Failed>
    requires { length packet.now ≤ 1600 }
    ensures ok { OnOk result (HasWritten (O.output writer.old) (O.output writer.new) (record_bytes order (whole time packet.now)) false) }
    ensures err { OnErr result (WroteFront (O.output writer.old) (O.output writer.new) (record_bytes order (whole time packet.now)) true) }
{
    let head = record_head_bytes(order, time, packet.len() as u32);
    if let Err(Failed) = write_all(writer, &head) {
        return Err(Failed);
    }
    write_all(writer, packet)
}
