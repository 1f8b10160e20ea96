//! Parts of an IP packet. A part is there if the packet has all of its bytes.

ghost use Rattle.std.specs.Prelude.{◌≡◌, ◌≤◌, IfSome};
ghost use Rattle.click_filter.specs.Packets.{byte_at, word_at, address_at, fragment_word, is_fragment, transport_at, carries, with_protocol, port, tcp_flags, icmp_type};

use crate::test::Transport;

/// Returns the byte at index `at`, if it is there.
#[inline(always)]
pub fn byte_at(packet: &[u8], at: usize) -> Option<u8>
    ensures { result ≡ byte_at at packet.now }
{
    if at < packet.len() {
        Some(packet[at])
    } else {
        None
    }
}

/// Returns the two bytes from index `at` on as a number, if both are there.
#[inline(always)]
pub fn word_at(packet: &[u8], at: usize) -> Option<u16>
    requires { at ≤ 64 }
    ensures { result ≡ word_at at packet.now }
{
    if at + 1 < packet.len() {
        Some(u16::from(packet[at]) * 256 + u16::from(packet[at + 1]))
    } else {
        None
    }
}

/// Returns the four bytes from index `at` on as a number, if all are there.
#[inline(always)]
pub fn address_at(packet: &[u8], at: usize) -> Option<u32>
    requires { at ≤ 64 }
    ensures { result ≡ address_at at packet.now }
{
    if at + 3 < packet.len() {
        Some(u32::from_be_bytes([packet[at], packet[at + 1], packet[at + 2], packet[at + 3]]))
    } else {
        None
    }
}

/// Returns the flags of fragmentation with the fragment offset (RFC 791, section 3.1).
#[inline(always)]
pub fn fragment_word(packet: &[u8]) -> Option<u16>
    ensures { result ≡ fragment_word packet.now }
{
    word_at(packet, 6)
}

/// Returns whether this word is that of a fragment: the flag MF is set, or the offset is not 0.
#[inline(always)]
pub fn is_fragment(word: Option<u16>) -> bool
    ensures { result ≡ is_fragment word }
{
    match word {
        Some(word) => !(word % 16384 == 0),
        None => false,
    }
}

/// Returns the offset of the transport header, which lies behind the options, if it is there.
#[inline(always)]
fn transport_at(packet: &[u8]) -> Option<usize>
    ensures value { result ≡ transport_at packet.now }
    ensures small { IfSome result (λ at. at ≤ 60) }
{
    let first = byte_at(packet, 0)?;
    let word = fragment_word(packet)?;
    let words = usize::from(first % 16);
    if 5 <= words && word % 8192 == 0 {
        Some(words * 4)
    } else {
        None
    }
}

impl Transport {
    /// Returns whether this is the number of one of the protocols.
    #[inline(always)]
    fn carries(self, protocol: u8) -> bool
        ensures { result ≡ carries self protocol }
    {
        match self {
            Transport::Tcp => protocol == 6,
            Transport::Udp => protocol == 17,
            Transport::TcpOrUdp => protocol == 6 || protocol == 17,
        }
    }
}

/// Returns the port at this offset in the transport header, if the packet has one.
#[inline(always)]
pub fn port(packet: &[u8], transport: Transport, offset: usize) -> Option<u16>
    requires { offset ≤ 2 }
    ensures { result ≡ port transport offset packet.now }
{
    if !transport.carries(byte_at(packet, 9)?) {
        return None;
    }
    word_at(packet, transport_at(packet)? + offset)
}

/// Returns the byte with the flags of TCP, if the packet has one.
#[inline(always)]
pub fn tcp_flags(packet: &[u8]) -> Option<u8>
    ensures { result ≡ tcp_flags packet.now }
{
    if !(byte_at(packet, 9)? == 6) {
        return None;
    }
    byte_at(packet, transport_at(packet)? + 13)
}

/// Returns the type of an ICMP message, if the packet has one.
#[inline(always)]
pub fn icmp_type(packet: &[u8]) -> Option<u8>
    ensures { result ≡ icmp_type packet.now }
{
    if !(byte_at(packet, 9)? == 1) {
        return None;
    }
    byte_at(packet, transport_at(packet)?)
}
