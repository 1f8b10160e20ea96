//! Reading a capture from a source, record by record.

ghost use Rattle.std.specs.Prelude.{◌≡◌, ◌≤◌, length, take, IfOk, OnErr};
ghost use Rattle.click_capture.specs.Captures.{longest, head_bytes};
ghost use Rattle.click_prog.specs.Reading.{Took, Fills, ReadFails, ReadsHeader, ReadsRecord};
ghost use Rattle.click_streams.specs.Peers.{Input};
ghost use Rattle.click_capture.specs.declared.header.Header.{Header};

use click_capture::{
    HEADER_LEN, Header, HeaderFault, RECORD_HEADER_LEN, RecordHeader, TooLong, header_of,
    record_header_of,
};
use click_streams::{Failed, Source};

/// The reason why no header was read.
#[derive(Clone, Copy, Debug, PartialEq, Eq)]
pub enum HeaderReadFault {
    ReadFailed,
    /// The input ends after this number of bytes, fewer than a header has.
    Short(usize),
    Fault(HeaderFault),
}

/// The next item of a capture.
#[derive(Clone, Copy, Debug, PartialEq, Eq)]
pub enum NextRecord {
    End,
    Packet(RecordHeader),
}

/// The reason why no record was read.
#[derive(Clone, Copy, Debug, PartialEq, Eq)]
pub enum RecordReadFault {
    ReadFailed,
    /// The input ends inside the record.
    Cut,
    TooLong(TooLong),
}

/// Reads bytes until the piece is full or the input ends. Returns their number.
fn fill<R: Source>(reader: &mut R, piece: &mut [u8]) -> Result<usize, Failed>
    ensures len { length piece.new ≡ length piece.old }
    ensures ok { IfOk result (λ n. (n ≡ length (take n piece.new)) × Fills (R.input reader.old) (R.input reader.new) (length piece.new) (take n piece.new)) }
    ensures err { OnErr result (ReadFails (R.input reader.old) (R.input reader.new)) }
{
    let mut at = 0;
    while at < piece.len() {
        match reader.read(&mut piece[at..]) {
            Ok(0) => return Ok(at),
            Ok(n) => at += n,
            Err(Failed) => return Err(Failed),
        }
    }
    Ok(at)
}

/// Reads the header of a capture.
pub fn read_header<R: Source>(reader: &mut R) -> Result<Header, HeaderReadFault>
    ensures { ReadsHeader (R.input reader.old) (R.input reader.new) result }
{
    let mut bytes = [0; HEADER_LEN];
    match fill(reader, &mut bytes) {
        Err(Failed) => Err(HeaderReadFault::ReadFailed),
        Ok(count) if count < HEADER_LEN => Err(HeaderReadFault::Short(count)),
        Ok(_) => match header_of(&bytes) {
            Ok(header) => Ok(header),
            Err(fault) => Err(HeaderReadFault::Fault(fault)),
        },
    }
}

/// Reads the next record. The bytes of its packet are then the first ones of `packet`, which has
/// room for the longest record.
pub fn read_record<R: Source>(
    reader: &mut R,
    header: &Header,
    packet: &mut [u8],
) -> Result<NextRecord, RecordReadFault>
    requires { length packet.old ≡ 262144 }
    ensures len { length packet.new ≡ 262144 }
    ensures reads { ReadsRecord header.now (R.input reader.old) (R.input reader.new) packet.new result }
{
    let mut bytes = [0; RECORD_HEADER_LEN];
    match fill(reader, &mut bytes) {
        Err(Failed) => return Err(RecordReadFault::ReadFailed),
        Ok(0) => return Ok(NextRecord::End),
        Ok(count) if count < RECORD_HEADER_LEN => return Err(RecordReadFault::Cut),
        Ok(_) => {}
    }
    match record_header_of(header, &bytes) {
        Err(fault) => Err(RecordReadFault::TooLong(fault)),
        Ok(head) => read_packet(reader, head, packet),
    }
}

/// Reads the bytes of the packet that follows the record header `head`.
fn read_packet<R: Source>(
    reader: &mut R,
    head: RecordHeader,
    packet: &mut [u8],
) -> Result<NextRecord, RecordReadFault>
    requires room { length packet.old ≡ 262144 }
    requires kept { head.kept ≤ 262144 }
    ensures len { length packet.new ≡ 262144 }
    ensures reads { (had : Input) (header : Header) → Took had (R.input reader.old) (head_bytes header.order head) → head.kept ≤ longest header.snap
        → ReadsRecord header had (R.input reader.new) packet.new result }
{
    let kept = head.kept as usize;
    match fill(reader, &mut packet[..kept]) {
        Err(Failed) => Err(RecordReadFault::ReadFailed),
        Ok(count) if count < kept => Err(RecordReadFault::Cut),
        Ok(_) => Ok(NextRecord::Packet(head)),
    }
}
