//! Writing bytes to a sink.

ghost use Rattle.std.specs.Prelude.{false, true, OnOk, OnErr};
ghost use Rattle.click_streams.specs.Peers.{HasWritten, WroteFront};

use crate::peer::{Failed, Sink};

/// Writes all the bytes, in as many writes as necessary.
pub fn write_all<W: Sink>(writer: &mut W, bytes: &[u8]) -> Result<(), Failed>
    ensures ok { OnOk result (HasWritten (W.output writer.old) (W.output writer.new) bytes.now false) }
    ensures err { OnErr result (WroteFront (W.output writer.old) (W.output writer.new) bytes.now true) }
{
    let mut at = 0;
    while at < bytes.len() {
        match writer.write(&bytes[at..]) {
            Ok(n) => at += n,
            Err(Failed) => return Err(Failed),
        }
    }
    Ok(())
}
