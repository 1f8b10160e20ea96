//! Theorems about the definitions.
ghost use Rattle.std.specs.Prelude.{◌≡◌, ℕ, List, [], ◌∷◌, Some, true, false, ◌+◌, ◌*◌, ◌%◌, ◌≤◌, ◌≢◌, length, take, drop, min, slice_index, Contains};
ghost use Rattle.click_packet.specs.Checksum.{sum_of_words, ones_sum};
ghost use Rattle.click_packet.specs.Header.{stated_len, total_len, source, header, header_good};
ghost use Rattle.click_gateway.specs.Datagrams.{destination};
ghost use Rattle.click_gateway.specs.Icmp.{carried, message, is_echo_request, echo_reply, may_report, report_of};
ghost use Rattle.click_gateway.specs.Mirrors.{is_frame, mirrored_frame, mirrored, with_checksum};
ghost use Rattle.click_gateway.specs.Udp.{with_pseudo_header, udp_datagram};
ghost use Rattle.click_gateway.specs.Arp.{is_station, requested, reply_to, request_for, sender, sender_ether};

/// The ones' complement sum of each message is ffff, which is what its receiver checks (RFC 1071).
pub fn messages_sum_to_ones()
    ensures { (kind code : ℕ) (rest : List ℕ) → ones_sum (sum_of_words (message kind code rest)) ≡ 65535 }
{}

/// An ARP reply goes to the host that asked, and its sender has the address that the host asked
/// for.
///
/// The sender's Ethernet address is that of the station that replies (RFC 826).
pub fn replies_name_the_requested_address()
    ensures to { (frame ether : List ℕ) → take 6 (reply_to ether frame) ≡ sender_ether frame }
    ensures sender { (frame ether address : List ℕ) → length ether ≡ 6 → is_station ether ≡ true → requested frame ≡ Some address
        → sender (reply_to ether frame) ≡ Some (record { ip = address; ether = ether }) }
{}

/// An ARP request asks for the wanted address, and its sender is the station that asks (RFC 826).
pub fn requests_ask_for_the_address()
    ensures wanted { (ip ether wanted : List ℕ) → length ip ≡ 4 → length ether ≡ 6 → length wanted ≡ 4
        → requested (request_for ip ether wanted) ≡ Some wanted }
    ensures sender { (ip ether wanted : List ℕ) → length ip ≡ 4 → length ether ≡ 6 → is_station ether ≡ true → length wanted ≡ 4
        → sender (request_for ip ether wanted) ≡ Some (record { ip = ip; ether = ether }) }
{}

/// No error is sent about the report of an error (RFC 1122, section 3.2.2).
///
/// The reports of errors are the messages of types 3, 4, 5, 11 and 12, with any code.
pub fn no_error_about_an_error()
    ensures { (own further bytes : List ℕ) (kind code : ℕ) → length own ≡ 4 → Contains (3 ∷ 4 ∷ 5 ∷ 11 ∷ 12 ∷ []) kind
        → may_report (report_of own kind code further bytes) ≡ false }
{}

/// An echo reply is a valid datagram from the host that was asked to the host that asked.
///
/// Its message sums to ffff, as RFC 1071 asks. From byte 4 on, the message is that of the request:
/// the identifier, the sequence number and the data. The reply is as long as the request, without
/// the bytes of the frame after the request (RFC 792, page 14; RFC 1122, section 3.2.2.6).
pub fn echo_replies_are_good()
    ensures good { (bytes : List ℕ) → header_good (echo_reply bytes) [] ≡ true }
    ensures source { (bytes : List ℕ) → source (echo_reply bytes) ≡ destination bytes }
    ensures destination { (bytes : List ℕ) → destination (echo_reply bytes) ≡ source bytes }
    ensures sum { (bytes : List ℕ) → ones_sum (sum_of_words (carried (echo_reply bytes))) ≡ 65535 }
    ensures data { (bytes : List ℕ) → drop 4 (carried (echo_reply bytes)) ≡ drop 4 (carried bytes) }
    ensures len { (bytes : List ℕ) → is_echo_request bytes ≡ true → length (echo_reply bytes) ≡ total_len bytes }
{}

/// The report of an error is a valid datagram from the router to the source of the bad datagram.
///
/// Its message sums to ffff, as RFC 1071 asks. From byte 8 on, the message has the first bytes of
/// the bad datagram, at most 548. The report has at most 576 bytes (RFC 1812, section 4.3.2.3).
pub fn reports_are_good()
    ensures good { (own further bytes : List ℕ) (kind code : ℕ) → length own ≡ 4 → header_good (report_of own kind code further bytes) [] ≡ true }
    ensures source { (own further bytes : List ℕ) (kind code : ℕ) → length own ≡ 4 → source (report_of own kind code further bytes) ≡ own }
    ensures destination { (own further bytes : List ℕ) (kind code : ℕ) → length own ≡ 4 → destination (report_of own kind code further bytes) ≡ source bytes }
    ensures sum { (own further bytes : List ℕ) (kind code : ℕ) → length own ≡ 4
        → ones_sum (sum_of_words (carried (report_of own kind code further bytes))) ≡ 65535 }
    ensures quote { (own further bytes : List ℕ) (kind code : ℕ) → length own ≡ 4 → length further ≡ 4
        → drop 8 (carried (report_of own kind code further bytes)) ≡ take (min (total_len bytes) 548) bytes }
    ensures len { (own further bytes : List ℕ) (kind code : ℕ) → length own ≡ 4 → length further ≡ 4
        → length (report_of own kind code further bytes) ≤ 576 }
{}

/// No error is sent about a later fragment (RFC 1122, section 3.2.2).
///
/// The fragment offset, the lower 13 bits of bytes 6 and 7, is not zero there (RFC 791, section
/// 3.1).
pub fn no_error_about_a_later_fragment()
    ensures { (bytes : List ℕ) → (slice_index bytes 6 * 256 + slice_index bytes 7) % 8192 ≢ 0 → may_report bytes ≡ false }
{}

/// A frame that is mirrored twice is the frame that it was.
pub fn frames_mirrored_twice_are_the_same()
    ensures { (frame : List ℕ) → is_frame frame ≡ true → mirrored_frame (mirrored_frame frame) ≡ frame }
{}

/// A datagram with a header that is mirrored twice is the datagram that it was.
pub fn datagrams_mirrored_twice_are_the_same()
    ensures { (bytes : List ℕ) → 20 ≤ stated_len bytes → stated_len bytes ≤ length bytes → mirrored (mirrored bytes) ≡ bytes }
{}

/// A header whose checksum is set sums to ffff, which is what its receiver checks (RFC 1071).
pub fn set_checksums_are_right()
    ensures { (bytes : List ℕ) → 20 ≤ stated_len bytes → stated_len bytes ≤ length bytes → ones_sum (sum_of_words (header (with_checksum bytes))) ≡ 65535 }
{}

/// A packet in a UDP datagram is a valid datagram between the two ends of the tunnel.
///
/// The pseudo header and the segment sum to ffff, as RFC 768 asks. From byte 8 on, the segment has
/// the bytes of the packet.
pub fn encapsulated_packets_are_good()
    ensures good { (from to content : List ℕ) (from_port to_port : ℕ) → length from ≡ 4 → length to ≡ 4
        → header_good (udp_datagram from from_port to to_port content) [] ≡ true }
    ensures source { (from to content : List ℕ) (from_port to_port : ℕ) → length from ≡ 4 → length to ≡ 4
        → source (udp_datagram from from_port to to_port content) ≡ from }
    ensures destination { (from to content : List ℕ) (from_port to_port : ℕ) → length from ≡ 4 → length to ≡ 4
        → destination (udp_datagram from from_port to to_port content) ≡ to }
    ensures sum { (from to content : List ℕ) (from_port to_port : ℕ) → length from ≡ 4 → length to ≡ 4
        → ones_sum (sum_of_words (with_pseudo_header from to (length content + 8) (carried (udp_datagram from from_port to to_port content)))) ≡ 65535 }
    ensures content { (from to content : List ℕ) (from_port to_port : ℕ) → length from ≡ 4 → length to ≡ 4
        → drop 8 (carried (udp_datagram from from_port to to_port content)) ≡ content }
    ensures len { (from to content : List ℕ) (from_port to_port : ℕ) → length from ≡ 4 → length to ≡ 4
        → length (udp_datagram from from_port to to_port content) ≡ 28 + length content }
{}
