//! The internet header at the front of a packet's bytes (RFC 791, section 3.1).
ghost use Rattle.std.specs.Prelude.{◌≡◌, ◌-◌, ◌≤◌, length, true, false, not, nat_lt, if◌then◌else◌, IfSome, MatchOption, slice_index};
ghost use Rattle.std.specs.List.{list_any};
ghost use Rattle.std.specs.Str.{bytes_eq};
ghost use Rattle.click_packet.specs.Header.{source, stated_len, header_len, header_good, ttl, with_ttl};

use crate::checksum::{checksum_at, sums_to_ones};

/// Returns the length of the header in bytes, or `None` if there is no header.
///
/// The length is four times the lower half of the first byte, and must be from 20 to the number of
/// bytes.
#[tactic(auto, using(crate::proofs::Headers::header_lens))]
pub fn header_len(bytes: &[u8]) -> Option<usize>
    ensures value { result ≡ header_len bytes.now }
    ensures stated { IfSome result (λ len. len ≡ stated_len bytes.now) }
    ensures range { IfSome result (λ len. (20 ≤ len) × (len ≤ length bytes.now)) }
{
    if bytes.len() < 20 {
        return None;
    }
    let len = usize::from(bytes[0] % 16) * 4;
    if 20 <= len && len <= bytes.len() {
        Some(len)
    } else {
        None
    }
}

/// Returns whether the bytes begin with a valid header whose source address is not in `refused`.
///
/// The header must be complete, of version 4, and with words that sum to ffff. Its total length
/// must lie between its own length and the number of bytes.
///
/// perf: the fast path is for a header without options and an empty `refused`.
#[inline(always)]
pub fn is_good(bytes: &[u8], refused: &[[u8; 4]]) -> bool
    ensures { result ≡ header_good bytes.now refused.now }
{
    if bytes.len() < 20 {
        return false;
    }
    if bytes[0] != 0x45 || !refused.is_empty() {
        return is_good_of_any_length(bytes, refused);
    }
    let total = usize::from(bytes[2]) * 256 + usize::from(bytes[3]);
    if total < 20 || bytes.len() < total {
        return false;
    }
    sums_to_ones(&bytes[..20])
}

/// Does what `is_good` does, for a header of any length.
///
/// perf: out of line, so that rare headers cost the others no registers.
#[cold]
#[inline(never)]
fn is_good_of_any_length(bytes: &[u8], refused: &[[u8; 4]]) -> bool
    ensures { result ≡ header_good bytes.now refused.now }
{
    if bytes.len() < 20 {
        return false;
    }
    let first = bytes[0];
    let len = usize::from(first % 16) * 4;
    let total = usize::from(bytes[2]) * 256 + usize::from(bytes[3]);
    // The first byte states version 4 and a length of at least 20 bytes.
    if first < 0x45 || 0x4f < first || total < len || bytes.len() < total {
        return false;
    }
    if !sums_to_ones(&bytes[..len]) {
        return false;
    }
    is_welcome(bytes, refused)
}

/// Returns whether the source address of a header is not in `refused`.
fn is_welcome(bytes: &[u8], refused: &[[u8; 4]]) -> bool
    requires { 16 ≤ length bytes.now }
    ensures { result ≡ not (list_any (λ address. bytes_eq address (source bytes.now)) refused.now) }
{
    let source = [bytes[12], bytes[13], bytes[14], bytes[15]];
    !refused.contains(&source)
}

/// Sets the time to live of a header with this length, and its checksum.
fn write_ttl(bytes: &mut [u8], len: usize, ttl: u8)
    requires stated { len ≡ stated_len bytes.old }
    requires long { 20 ≤ len }
    requires there { len ≤ length bytes.old }
    ensures { bytes.new ≡ with_ttl bytes.old ttl }
{
    let [high, low] = checksum_at(&bytes[..len], ttl);
    bytes[8] = ttl;
    bytes[10] = high;
    bytes[11] = low;
}

/// Sets the time to live and the checksum. Returns false, and changes nothing, if there is no
/// header.
pub fn set_ttl(bytes: &mut [u8], ttl: u8) -> bool
    ensures { MatchOption (header_len bytes.old)
        ((result ≡ false) × (bytes.new ≡ bytes.old))
        (λ _. (result ≡ true) × (bytes.new ≡ with_ttl bytes.old ttl)) }
{
    let Some(len) = header_len(bytes) else {
        return false;
    };
    write_ttl(bytes, len, ttl);
    true
}

/// Decrements the time to live of a header with this length, and sets its checksum.
///
/// Returns false, and changes nothing, if it is 0 or 1.
#[inline(always)]
fn count_down_in(bytes: &mut [u8], len: usize) -> bool
    requires stated { len ≡ stated_len bytes.old }
    requires long { 20 ≤ len }
    requires there { len ≤ length bytes.old }
    ensures passes { result ≡ nat_lt 1 (slice_index bytes.old 8) }
    ensures counted { bytes.new ≡ (if nat_lt 1 (slice_index bytes.old 8) then with_ttl bytes.old (slice_index bytes.old 8 - 1) else bytes.old) }
{
    let hops = bytes[8];
    if hops <= 1 {
        return false;
    }
    write_ttl(bytes, len, hops - 1);
    true
}

/// Decrements the time to live, and sets the checksum.
///
/// Returns false, and changes nothing, if it is 0 or 1 or there is no header.
///
/// perf: the fast path is for a header without options.
#[tactic(auto, using(crate::proofs::Headers::header_lens))]
#[inline(always)]
pub fn count_down(bytes: &mut [u8]) -> bool
    ensures { MatchOption (ttl bytes.old)
        ((result ≡ false) × (bytes.new ≡ bytes.old))
        (λ hops. (result ≡ nat_lt 1 hops)
        × (bytes.new ≡ (if nat_lt 1 hops then with_ttl bytes.old (hops - 1) else bytes.old))) }
{
    if bytes.len() < 20 {
        return false;
    }
    if bytes[0] % 16 != 5 {
        return count_down_at_any_length(bytes);
    }
    count_down_in(bytes, 20)
}

/// Does what `count_down` does, for a header of any length.
#[cold]
#[inline(never)]
fn count_down_at_any_length(bytes: &mut [u8]) -> bool
    ensures { MatchOption (ttl bytes.old)
        ((result ≡ false) × (bytes.new ≡ bytes.old))
        (λ hops. (result ≡ nat_lt 1 hops)
        × (bytes.new ≡ (if nat_lt 1 hops then with_ttl bytes.old (hops - 1) else bytes.old))) }
{
    let Some(len) = header_len(bytes) else {
        return false;
    };
    count_down_in(bytes, len)
}
