//! IP datagrams that are made (RFC 791, section 3.1).
ghost use Rattle.std.specs.Prelude.{◌≡◌, ◌≤◌, length, slice_index};
ghost use Rattle.click_gateway.specs.Datagrams.{datagram_of};

use click_packet::Packet;

/// The fields of an IP header that differ between datagrams.
///
/// `flags` is byte 6, where 64 stands for "do not fragment". `hops` is the time to live.
#[derive(Clone, Copy)]
pub(crate) struct Fields {
    pub(crate) protocol: u8,
    pub(crate) service: u8,
    pub(crate) id: [u8; 2],
    pub(crate) flags: u8,
    pub(crate) hops: u8,
    pub(crate) source: [u8; 4],
    pub(crate) destination: [u8; 4],
}

/// Inserts an IP header without options before the bytes, and sets the destination annotation.
pub(crate) fn send_as(packet: &mut Packet, fields: &Fields)
    requires { length packet.old.bytes ≤ 1580 }
    ensures { packet.new ≡ record packet.old {
      bytes = datagram_of (record {
        protocol = fields.now.protocol;
        service = fields.now.service;
        id_high = slice_index fields.now.id 0;
        id_low = slice_index fields.now.id 1;
        flags = fields.now.flags;
        hops = fields.now.hops;
      }) fields.now.source fields.now.destination packet.old.bytes;
      destination = fields.now.destination;
    } }
{
    let total = packet.bytes().len() + 20;
    let from = fields.source;
    let to = fields.destination;
    let header = [
        69,
        fields.service,
        (total / 256) as u8,
        (total % 256) as u8,
        fields.id[0],
        fields.id[1],
        fields.flags,
        0,
        0,
        fields.protocol,
        0,
        0,
        from[0],
        from[1],
        from[2],
        from[3],
        to[0],
        to[1],
        to[2],
        to[3],
    ];
    match packet.prepend_array(&header) {
        Ok(()) => {}
        Err(_) => unreachable!(),
    }
    let _there = packet.set_ttl(fields.hops);
    packet.set_destination(to);
}
