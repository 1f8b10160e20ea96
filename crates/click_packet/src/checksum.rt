//! The checksum of an internet header (RFC 791, section 3.1).
//!
//! perf: the sums are over 32-bit words, half as many as of 16 bits, with the low byte first, as
//! the machine loads them. Because 65,536 is 1 modulo 65,535, their ones' complement sum is that of
//! the 16-bit words with its two bytes exchanged (RFC 1071, section 2).
ghost use Rattle.std.specs.Prelude.{◌≡◌, ◌+◌, ◌-◌, ◌*◌, ◌/◌, ◌%◌, ◌<◌, ◌≤◌, ◌↔◌, [], ◌∷◌, length, drop, slice_index, slice_set, IsTrue};
ghost use Rattle.click_packet.specs.Checksum.{sum_of_words, ones_sum};
ghost use Rattle.click_packet.specs.Header.{checksum};
ghost use Rattle.click_packet.specs.kept.Quads.{quads};

/// Returns the 32-bit word at offset `at`, with the low byte first.
fn quad(header: &[u8], at: usize) -> u64
    requires { at + 4 ≤ length header.now }
    ensures value { result ≡ slice_index header.now at + slice_index header.now (at + 1) * 256
        + slice_index header.now (at + 2) * 65536 + slice_index header.now (at + 3) * 16777216 }
    ensures fits { result < 4294967296 }
{
    let word = [header[at], header[at + 1], header[at + 2], header[at + 3]];
    u64::from(u32::from_le_bytes(word))
}

/// Returns the sum of the 32-bit words of a header's options, which follow its first 20 bytes.
#[tactic(auto, using(crate::proofs::Quads::quad_steps))]
fn sum_of_options(header: &[u8]) -> u64
    requires whole { length header.now % 4 ≡ 0 }
    requires long { 20 ≤ length header.now }
    requires short { length header.now ≤ 60 }
    ensures value { result ≡ quads (drop 20 header.now) }
    ensures fits { result < 68719476736 }
{
    let mut sum = 0;
    for at in 5..header.len() / 4 {
        sum += quad(header, 4 * at);
    }
    sum
}

/// Returns whether the ones' complement sum of a header's 16-bit words is ffff.
///
/// It is ffff if the checksum is right.
pub fn sums_to_ones(header: &[u8]) -> bool
    requires whole { length header.now % 4 ≡ 0 }
    requires long { 20 ≤ length header.now }
    requires short { length header.now ≤ 60 }
    requires begun { 0 < slice_index header.now 0 }
    ensures { IsTrue result ↔ (ones_sum (sum_of_words header.now) ≡ 65535) }
{
    let total = sum_of_options(header)
        + quad(header, 0)
        + quad(header, 4)
        + quad(header, 8)
        + quad(header, 12)
        + quad(header, 16);
    total % 65535 == 0
}

/// Returns the two checksum bytes of the header with this time to live.
///
/// The values in bytes 8, 10 and 11 of `header` do not matter.
pub fn checksum_at(header: &[u8], ttl: u8) -> [u8; 2]
    requires whole { length header.now % 4 ≡ 0 }
    requires long { 20 ≤ length header.now }
    requires short { length header.now ≤ 60 }
    requires begun { 0 < slice_index header.now 0 }
    ensures { result ≡ checksum (slice_set header.now 8 ttl) / 256 ∷ checksum (slice_set header.now 8 ttl) % 256 ∷ [] }
{
    // The second half of the third word is the checksum field itself, which counts as zero.
    let third = u64::from(ttl) + u64::from(header[9]) * 256;
    let total = sum_of_options(header)
        + quad(header, 0)
        + quad(header, 4)
        + third
        + quad(header, 12)
        + quad(header, 16);
    ((65534 - (total - 1) % 65535) as u16).to_le_bytes()
}

/// Returns the plain sum of the 16-bit words of the bytes, in network order. An odd last byte is the
/// high half of a word.
#[tactic(auto, using(crate::proofs::WordSums::word_steps))]
fn sum_of_words_in(bytes: &[u8]) -> u64
    requires { length bytes.now ≤ 65535 }
    ensures value { result ≡ sum_of_words bytes.now }
    ensures fits { result ≤ 4294967295 }
{
    let mut sum = 0;
    for at in 0..bytes.len() / 2 {
        sum += u64::from(bytes[2 * at]) * 256 + u64::from(bytes[2 * at + 1]);
    }
    if bytes.len() % 2 == 1 {
        sum += u64::from(bytes[bytes.len() - 1]) * 256;
    }
    sum
}

/// Returns the ones' complement sum of the 16-bit words of the bytes (RFC 1071).
pub fn ones_sum_of(bytes: &[u8]) -> u16
    requires { length bytes.now ≤ 65535 }
    ensures { result ≡ ones_sum (sum_of_words bytes.now) }
{
    let sum = sum_of_words_in(bytes);
    if sum == 0 {
        return 0;
    }
    ((sum - 1) % 65535 + 1) as u16
}
