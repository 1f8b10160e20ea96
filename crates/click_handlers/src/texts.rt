//! The texts that handlers read and write.

ghost use Rattle.std.specs.Prelude.{◌≡◌, ◌≢◌, ◌<◌, ◌≤◌, ◌++◌, length, codes, decimal, IfOk, IfErr, OnOk};
ghost use Rattle.std.specs.List.{position_or_len};
ghost use Rattle.click_base.specs.Blanks.{is_blank};
ghost use Rattle.click_handlers.specs.Reads.{truth_text, port_text, dotted, gateway_text, route_text, hex_char, hex_pair, colon_pair, ether_text, known_text, neighbour_line, neighbour_lines};
ghost use Rattle.click_handlers.specs.Writes.{number_from, written_port, written_flag, first_word, after_word, written_address, written_neighbour};

use crate::fault::HandlerFault;
use click_base::{NumberFault, decimal_number, is_blank, without_front};
use click_classes::{Entry, Neighbours, address, ethernet, truth};
use itoa::Buffer;
use std::alloc::{AllocError, Global};

/// Returns a number in decimal digits.
pub(crate) fn number_text(alloc: Global, number: u64) -> Result<Vec<u8>, HandlerFault>
    ensures text { IfOk result (λ text. text.items ≡ decimal number) }
    ensures memory { IfErr result (λ fault. fault ≡ HandlerFault.NoMemory) }
{
    let mut buffer = Buffer::new();
    bytes_text(alloc, buffer.format(number).as_bytes())
}

/// Returns a copy of the bytes.
fn bytes_text(alloc: Global, bytes: &[u8]) -> Result<Vec<u8>, HandlerFault>
    ensures text { IfOk result (λ text. text.items ≡ bytes.now) }
    ensures memory { IfErr result (λ fault. fault ≡ HandlerFault.NoMemory) }
{
    match Vec::from_slice(alloc, bytes) {
        Ok(text) => Ok(text),
        Err(_) => Err(HandlerFault::NoMemory),
    }
}

/// Returns `true` or `false` as text.
pub(crate) fn truth_text(alloc: Global, truth: bool) -> Result<Vec<u8>, HandlerFault>
    ensures text { IfOk result (λ text. text.items ≡ truth_text truth) }
    ensures memory { IfErr result (λ fault. fault ≡ HandlerFault.NoMemory) }
{
    if truth {
        bytes_text(alloc, b"true")
    } else {
        bytes_text(alloc, b"false")
    }
}

/// Returns the port that a switch uses, or `-1` for none, as text.
pub(crate) fn port_text(alloc: Global, port: Option<u8>) -> Result<Vec<u8>, HandlerFault>
    ensures text { IfOk result (λ text. text.items ≡ port_text port) }
    ensures memory { IfErr result (λ fault. fault ≡ HandlerFault.NoMemory) }
{
    match port {
        Some(port) => number_text(alloc, u64::from(port)),
        None => bytes_text(alloc, b"-1"),
    }
}

/// Appends a number in decimal digits.
fn push_decimal(text: &mut Vec<u8>, number: u8) -> Result<(), AllocError>
    ensures { OnOk result (text.new.items ≡ text.old.items ++ decimal number) }
{
    let mut buffer = Buffer::new();
    text.extend_from_slice(buffer.format(number).as_bytes())?;
    Ok(())
}

/// Appends an address: four numbers with dots between them.
pub fn push_dotted(text: &mut Vec<u8>, address: [u8; 4]) -> Result<(), AllocError>
    ensures { OnOk result (text.new.items ≡ text.old.items ++ dotted address) }
{
    let [first, second, third, fourth] = address;
    push_decimal(text, first)?;
    text.extend_from_slice(b".")?;
    push_decimal(text, second)?;
    text.extend_from_slice(b".")?;
    push_decimal(text, third)?;
    text.extend_from_slice(b".")?;
    push_decimal(text, fourth)
}

/// Appends the gateway of an entry after a space, if it has one.
fn push_gateway(text: &mut Vec<u8>, gateway: Option<[u8; 4]>) -> Result<(), AllocError>
    ensures { OnOk result (text.new.items ≡ text.old.items ++ gateway_text gateway) }
{
    match gateway {
        Some(gateway) => {
            text.extend_from_slice(b" ")?;
            push_dotted(text, gateway)
        }
        None => Ok(()),
    }
}

/// Returns the output of an entry and its gateway, as text.
fn entry_text(alloc: Global, entry: Entry) -> Result<Vec<u8>, AllocError>
    ensures { IfOk result (λ text. text.items ≡ decimal entry.output ++ gateway_text entry.gateway) }
{
    let mut buffer = Buffer::new();
    let mut text = Vec::from_slice(alloc, buffer.format(entry.output).as_bytes())?;
    push_gateway(&mut text, entry.gateway)?;
    Ok(text)
}

/// Returns the output and the gateway of an entry, or `-1` for no entry, as text.
pub(crate) fn route_text(alloc: Global, entry: Option<Entry>) -> Result<Vec<u8>, HandlerFault>
    ensures text { IfOk result (λ text. text.items ≡ route_text entry) }
    ensures memory { IfErr result (λ fault. fault ≡ HandlerFault.NoMemory) }
{
    let Some(entry) = entry else {
        return bytes_text(alloc, b"-1");
    };
    match entry_text(alloc, entry) {
        Ok(text) => Ok(text),
        Err(_) => Err(HandlerFault::NoMemory),
    }
}

/// Returns a number below 16 as a hexadecimal digit in lower case.
fn hex_char(number: u8) -> u8
    requires { number < 16 }
    ensures { result ≡ hex_char number }
{
    if number < 10 {
        b'0' + number
    } else {
        b'a' - 10 + number
    }
}

/// Appends a byte as two hexadecimal digits in lower case.
fn push_pair(text: &mut Vec<u8>, byte: u8) -> Result<(), AllocError>
    ensures { OnOk result (text.new.items ≡ text.old.items ++ hex_pair byte) }
{
    text.extend_from_slice(&[hex_char(byte / 16), hex_char(byte % 16)])
}

/// Appends a colon, and a byte as two hexadecimal digits in lower case.
fn push_colon_pair(text: &mut Vec<u8>, byte: u8) -> Result<(), AllocError>
    ensures { OnOk result (text.new.items ≡ text.old.items ++ colon_pair byte) }
{
    text.extend_from_slice(b":")?;
    push_pair(text, byte)
}

/// Appends an Ethernet address: six pairs of hexadecimal digits with colons between them.
fn push_ether(text: &mut Vec<u8>, ether: [u8; 6]) -> Result<(), AllocError>
    ensures { OnOk result (text.new.items ≡ text.old.items ++ ether_text ether) }
{
    let [first, second, third, fourth, fifth, sixth] = ether;
    push_pair(text, first)?;
    push_colon_pair(text, second)?;
    push_colon_pair(text, third)?;
    push_colon_pair(text, fourth)?;
    push_colon_pair(text, fifth)?;
    push_colon_pair(text, sixth)?;
    Ok(())
}

/// Appends the Ethernet address of a neighbour, or `-` if it is not known.
fn push_known(text: &mut Vec<u8>, ether: Option<[u8; 6]>) -> Result<(), AllocError>
    ensures { OnOk result (text.new.items ≡ text.old.items ++ known_text ether) }
{
    match ether {
        Some(ether) => push_ether(text, ether),
        None => text.extend_from_slice(b"-"),
    }
}

/// Appends the line of a neighbour.
fn push_neighbour(
    text: &mut Vec<u8>,
    address: [u8; 4],
    ether: Option<[u8; 6]>,
) -> Result<(), AllocError>
    ensures { OnOk result (text.new.items ≡ text.old.items ++ neighbour_line address ether) }
{
    push_dotted(text, address)?;
    text.extend_from_slice(b" ")?;
    push_known(text, ether)?;
    text.extend_from_slice(b"\n")
}

/// Appends a line for each neighbour, in the order of the table.
fn push_neighbours(text: &mut Vec<u8>, table: &Neighbours) -> Result<(), AllocError>
    ensures { OnOk result (text.new.items ≡ text.old.items ++ neighbour_lines table.now) }
{
    for place in 0..table.len() {
        let entry = table.entry(place);
        push_neighbour(text, entry.address, entry.ether)?;
    }
    Ok(())
}

/// Returns a line for each neighbour, in the order of the table.
pub(crate) fn table_text(alloc: Global, table: &Neighbours) -> Result<Vec<u8>, HandlerFault>
    ensures text { IfOk result (λ text. text.items ≡ neighbour_lines table.now) }
    ensures memory { IfErr result (λ fault. fault ≡ HandlerFault.NoMemory) }
{
    let mut text = Vec::new(alloc);
    match push_neighbours(&mut text, table) {
        Ok(()) => Ok(text),
        Err(_) => Err(HandlerFault::NoMemory),
    }
}

/// Parses a number from `low` to `high` in decimal digits only.
pub(crate) fn number_from(text: &[u8], low: u64, high: u64) -> Result<u64, HandlerFault>
    ensures value { result ≡ number_from low high text.now }
    ensures bound { IfOk result (λ n. n ≤ high) }
    ensures memory { IfErr result (λ fault. fault ≢ HandlerFault.NoMemory) }
{
    match decimal_number(text, low, high) {
        Ok(number) => Ok(number),
        Err(NumberFault::BadNumber) => Err(HandlerFault::BadNumber),
        Err(NumberFault::OutOfRange) => Err(HandlerFault::OutOfRange),
    }
}

/// Parses `-1`, which is `None`, or a port below the number of ports.
pub(crate) fn written_port(text: &[u8], ports: u16) -> Result<Option<u8>, HandlerFault>
    ensures value { result ≡ written_port ports text.now }
    ensures memory { IfErr result (λ fault. fault ≢ HandlerFault.NoMemory) }
{
    if text == b"-1".as_slice() {
        return Ok(None);
    }
    let port = number_from(text, 0, 255)?;
    if port < u64::from(ports) {
        Ok(Some(port as u8))
    } else {
        Err(HandlerFault::OutOfRange)
    }
}

/// Parses a truth value.
pub(crate) fn written_flag(text: &[u8]) -> Result<bool, HandlerFault>
    ensures value { result ≡ written_flag text.now }
    ensures memory { IfErr result (λ fault. fault ≢ HandlerFault.NoMemory) }
{
    match truth(text) {
        Ok(flag) => Ok(flag),
        Err(_) => Err(HandlerFault::BadFlag),
    }
}

/// Returns the number of bytes before the first blank.
fn word_len(text: &[u8]) -> usize
    ensures len { result ≡ position_or_len is_blank text.now }
    ensures within { result ≤ length text.now }
{
    for (i, byte) in text.iter().enumerate() {
        if is_blank(*byte) {
            return i;
        }
    }
    text.len()
}

/// Splits a text that does not begin with a blank into its first word and the words after it.
fn cut(text: &[u8]) -> (&[u8], &[u8])
    ensures word { result.0.now ≡ first_word text.now }
    ensures rest { result.1.now ≡ after_word text.now }
{
    let (word, rest) = text.split_at(word_len(text));
    (word, without_front(rest))
}

/// Parses an address.
pub(crate) fn written_address(text: &[u8]) -> Result<[u8; 4], HandlerFault>
    ensures value { result ≡ written_address text.now }
    ensures memory { IfErr result (λ fault. fault ≢ HandlerFault.NoMemory) }
{
    match address(text) {
        Ok(bytes) => Ok(bytes),
        Err(_) => Err(HandlerFault::BadAddress),
    }
}

/// Parses two words: an address and its Ethernet address.
pub(crate) fn written_neighbour(text: &[u8]) -> Result<([u8; 4], [u8; 6]), HandlerFault>
    ensures value { result ≡ written_neighbour text.now }
    ensures memory { IfErr result (λ fault. fault ≢ HandlerFault.NoMemory) }
{
    let (word, rest) = cut(text);
    let bytes = match address(word) {
        Ok(bytes) => bytes,
        Err(_) => return Err(HandlerFault::BadAddress),
    };
    match ethernet(rest) {
        Ok(ether) => Ok((bytes, ether)),
        Err(_) => Err(HandlerFault::BadAddress),
    }
}
