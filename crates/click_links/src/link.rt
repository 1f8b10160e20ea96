//! The two ends of a link.

ghost use Rattle.std.specs.Prelude.{◌≡◌, ◌++◌, ◌∷◌, [], IfOk, OnErr, if◌then◌else◌};
ghost use Rattle.click_links.specs.Ends.{attempt, further};

use click_base::sequence::Sequence;
use click_packet::StoredPacket;

/// The receiving end of a link failed for good.
#[derive(Clone, Copy, Debug, PartialEq, Eq)]
pub struct LinkFailed;

/// The receiving end of a link.
pub trait Inbound {
    ghost use Rattle.click_links.specs.declared.datagram.Datagram.{Datagram};
    ghost use Rattle.click_links.specs.Ends.{Received};

    /// The addresses of the end, if it has any, and the datagrams that came, oldest first.
    ghost received: { Self → Received };

    /// The latest datagram.
    ghost current: { Self → Datagram };

    /// Blocks until a datagram comes, or until the link's own timeout is over. Returns whether one
    /// came.
    fn receive(&mut self) -> Result<bool, LinkFailed>
        ensures ok { IfOk result (λ one. received self.new ≡ further (received self.old) (if one then current self.new ∷ [] else [])) }
        ensures err { OnErr result (received self.new ≡ received self.old) };

    /// Returns the bytes of the latest datagram.
    fn bytes(&self) -> &[u8]
        ensures { result.now ≡ (current self.now).bytes };

    /// Returns whether the latest datagram is from the peer.
    fn is_known(&self) -> bool
        ensures { result ≡ (current self.now).known };

    /// Returns whether another datagram may be waiting. Never blocks. An end that does not know
    /// returns true.
    fn has_more(&self) -> bool {
        true
    }
}

/// The sending end of all links. Each packet is sent as a datagram of its bytes, over the link of
/// its device.
pub trait Outbound {
    ghost use Rattle.std.specs.Prelude.{List};
    ghost use Rattle.click_links.specs.Ends.{Attempt};

    /// The packets whose sending over any link was attempted, oldest first. Each has its device and
    /// whether it was sent.
    ghost attempts: { Self → List Attempt };

    /// Sends a packet over the device's link. Returns whether it was sent.
    ///
    /// A packet that was not sent is lost; later ones may be sent. If no link has the device, no
    /// packet of it is sent.
    fn send(&mut self, device: &Sequence<u8>, packet: &StoredPacket) -> bool
        ensures { attempts self.new ≡ attempts self.old ++ attempt device.now packet.now result ∷ [] };
}
