//! Links as values of `--link`: devices whose packets are UDP datagrams between two addresses.

ghost use Rattle.std.specs.Prelude.{◌≡◌, ◌↔◌, IfOk, IfErr, IsTrue, MatchOption, map};
ghost use Rattle.std.specs.List.{list_all, list_any};
ghost use Rattle.std.specs.Str.{bytes_eq};
ghost use Rattle.click_classes.specs.Values.{device_byte, is_device};
ghost use Rattle.click_prog.specs.Links.{AreLinks, IsAddressed, IsLink, IsLinkFault, IsNoLink, IsNoPlace, IsPlace, IsUnaddressed};

use crate::number::number_in;
use std::alloc::{AllocFailed, Global};
use std::net::{Ipv4Addr, SocketAddrV4};

/// The maximum number of links of a router.
const MOST_LINKS: usize = 16;

/// The maximum number of bytes of the name of a device.
const MAX_NAME_BYTES: usize = 64;

/// A device, and the two addresses between which its packets are datagrams.
#[derive(Clone, Copy, Debug)]
pub struct Link<'a> {
    /// The name of the device in FromDevice and ToDevice: 1 to 64 letters, digits, `_`, `.`, `:` and
    /// `-`.
    pub device: &'a str,
    /// The local address, at which its datagrams arrive.
    pub here: SocketAddrV4,
    /// The address of its peer, to which its datagrams are sent.
    pub there: SocketAddrV4,
}

/// The reason why values of `--link` are refused.
#[derive(Debug, Drop, thiserror::Error)]
pub enum LinkFault<'a> {
    #[error("out of memory")]
    NoMemory,
    /// This value is not a link.
    #[error("--link <DEVICE=HERE,THERE>: '{0}' is not a device (1 to 64 letters, digits, _ . : -) and two addresses, each a port of 127.0.0.1 (1 to 65535) or an IPv4 address with a port, such as 10.0.0.1:5000")]
    NoLink(&'a str),
    /// This value is a link whose two addresses are the same.
    #[error("--link <DEVICE=HERE,THERE>: '{0}' has the same address twice; HERE and THERE have to be different")]
    Circle(&'a str),
    /// Two links have this device.
    #[error("--link: the device '{0}' is given twice; each device can have one link")]
    Twice(&'a str),
    #[error("--link: there are more than 16 links; at most 16 are allowed")]
    TooMany,
}

impl<T: Drop> From<AllocFailed<T>> for LinkFault<'_> {
    ghost use Rattle.std.specs.Prelude.{◌≡◌};
    ghost use Rattle.click_prog.specs.declared.link.LinkFault.TheVariants.{NoMemory};

    ghost from_gives = { λ _ f. f ≡ NoMemory };

    fn from(_refused: AllocFailed<T>) -> Self {
        LinkFault::NoMemory
    }
}

/// Parses values as links, one each.
pub fn links_of<'a>(alloc: Global, values: &[&'a str]) -> Result<Vec<Link<'a>>, LinkFault<'a>>
    ensures links { IfOk result (λ links. AreLinks (map (λ v. v.now) values.now) links.items) }
    ensures refused { IfErr result (IsLinkFault (map (λ v. v.now) values.now)) }
{
    if values.len() > MOST_LINKS {
        return Err(LinkFault::TooMany);
    }
    let mut links = Vec::new(alloc);
    for value in values {
        let Some(link) = link_of(value) else {
            return Err(LinkFault::NoLink(value));
        };
        if is_circle(&link) {
            return Err(LinkFault::Circle(value));
        }
        if is_linked(links.as_slice(), link.device) {
            return Err(LinkFault::Twice(link.device));
        }
        links.push(link)?;
    }
    Ok(links)
}

/// Returns whether the two addresses of the link are the same.
fn is_circle(link: &Link) -> bool
    ensures { IsTrue result ↔ (link.now.here ≡ link.now.there) }
{
    link.here == link.there
}

/// Returns whether one of the links has this device.
fn is_linked(links: &[Link], device: &str) -> bool
    ensures { result ≡ list_any (λ l. bytes_eq l.device.now device.now) links.now }
{
    links.iter().any(|link| link.device == device)
}

/// Parses a value as a link.
fn link_of(value: &str) -> Option<Link<'_>>
    ensures { MatchOption result (IsNoLink value.now) (IsLink value.now) }
{
    let (device, places) = value.split_once('=')?;
    if !is_device(device.as_bytes()) {
        return None;
    }
    let (here, there) = places.split_once(',')?;
    Some(Link {
        device,
        here: place_of(here)?,
        there: place_of(there)?,
    })
}

/// Returns whether FromDevice and ToDevice take the bytes as the name of a device.
#[tactic(auto, unfolding(click_classes::specs::Values::is_device))]
fn is_device(bytes: &[u8]) -> bool
    ensures { result ≡ is_device bytes.now }
{
    1 <= bytes.len() && bytes.len() <= MAX_NAME_BYTES && all_device_bytes(bytes)
}

fn all_device_bytes(bytes: &[u8]) -> bool
    ensures { result ≡ list_all device_byte bytes.now }
{
    bytes.iter().all(|byte| is_device_byte(*byte))
}

/// Returns whether the byte is a letter, a digit, `_`, `.`, `:` or `-`.
fn is_device_byte(byte: u8) -> bool
    ensures { result ≡ device_byte byte }
{
    byte.is_ascii_alphanumeric() || byte == b'_' || byte == b'.' || byte == b':' || byte == b'-'
}

/// Parses an address: a port of 127.0.0.1, or an IPv4 address with a port.
fn place_of(text: &str) -> Option<SocketAddrV4>
    ensures { MatchOption result (IsNoPlace text.now) (IsPlace text.now) }
{
    match number_in(text, 1, 65_535) {
        Some(port) => Some(SocketAddrV4::new(Ipv4Addr::LOCALHOST, port as u16)),
        None => addressed(text),
    }
}

/// Parses an IPv4 address with a port.
fn addressed(text: &str) -> Option<SocketAddrV4>
    ensures { MatchOption result (IsUnaddressed text.now) (IsAddressed text.now) }
{
    let (address, port) = text.split_once(':')?;
    let Ok(address) = address.parse::<Ipv4Addr>() else {
        return None;
    };
    let port = number_in(port, 1, 65_535)?;
    Some(SocketAddrV4::new(address, port as u16))
}
