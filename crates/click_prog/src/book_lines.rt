//! Writes the entries of a book, each as a line of text.

ghost use Rattle.std.specs.Prelude.{◌≡◌, ◌++◌, ◌∷◌, [], true, is_some, IfOk, OnOk};
ghost use Rattle.std.specs.Io.KnownBytes.{Appends};
ghost use Rattle.click_router.specs.One.{sends_packet};
ghost use Rattle.click_prog.specs.Written.{written, book_text};

use click_desk::Entry;
use click_lines::entry_line;
use click_packet::PacketRoom;
use click_router::{CompactReply, StoredReply};
use std::alloc::{AllocError, Global};
use std::io::{self, Write};

/// Writes entries in order, each as a line.
pub fn write_book<W: Write>(alloc: Global, to: &mut W, entries: &[Entry]) -> io::Result<()>
    ensures { OnOk result (Appends (W.contents to.old) (W.contents to.new) (book_text entries.now)) }
{
    for entry in entries {
        write_entry(alloc, to, entry)?;
    }
    Ok(())
}

/// Writes the line of an entry.
fn write_entry<W: Write>(alloc: Global, to: &mut W, entry: &Entry) -> io::Result<()>
    ensures { OnOk result (Appends (W.contents to.old) (W.contents to.new) (written entry.now ++ 10 ∷ [])) }
{
    let room = room_for(alloc, &entry.reply)?;
    let reply = entry.reply.copy(alloc, room)?.into_reply();
    let mut line = entry_line(alloc, entry.seat, &entry.call, &reply)?;
    line.push(b'\n')?;
    to.write_all(&line)
}

/// Allocates the memory for the packet in a copy of this reply. Returns `None` if the reply has no
/// packet.
fn room_for(alloc: Global, reply: &StoredReply) -> Result<Option<PacketRoom>, AllocError>
    ensures { IfOk result (λ room. sends_packet reply.now ≡ true → is_some room ≡ true) }
{
    match reply.compact() {
        CompactReply::Sent(_) => Ok(Some(PacketRoom::new(alloc)?)),
        _ => Ok(None),
    }
}
