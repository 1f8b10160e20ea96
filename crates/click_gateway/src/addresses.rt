//! IP addresses that can be one host's, and those of groups.
ghost use Rattle.std.specs.Prelude.{◌≡◌, ◌+◌, ◌≤◌, length};
ghost use Rattle.click_gateway.specs.Addresses.{four, six, is_host, ethernet_of_group};

/// Returns the four bytes from index `at` on.
pub(crate) fn four(bytes: &[u8], at: usize) -> [u8; 4]
    requires { at + 4 ≤ length bytes.now }
    ensures { result ≡ four at bytes.now }
{
    [bytes[at], bytes[at + 1], bytes[at + 2], bytes[at + 3]]
}

/// Returns the six bytes from index `at` on.
pub(crate) fn six(bytes: &[u8], at: usize) -> [u8; 6]
    requires { at + 6 ≤ length bytes.now }
    ensures { result ≡ six at bytes.now }
{
    [
        bytes[at],
        bytes[at + 1],
        bytes[at + 2],
        bytes[at + 3],
        bytes[at + 4],
        bytes[at + 5],
    ]
}

/// Returns whether the address can be one host's: its first byte is 1 to 223, except 127 (RFC 1122,
/// section 3.2.1.3).
pub fn is_host(address: [u8; 4]) -> bool
    ensures { result ≡ is_host address }
{
    let first = address[0];
    1 <= first && first < 224 && !(first == 127)
}

/// Returns the Ethernet address of the limited broadcast address or of a multicast address (RFC
/// 1112, section 6.4), or `None` for all other addresses.
pub fn ethernet_of_group(address: [u8; 4]) -> Option<[u8; 6]>
    ensures { result ≡ ethernet_of_group address }
{
    if address == [255, 255, 255, 255] {
        return Some([255, 255, 255, 255, 255, 255]);
    }
    if 224 <= address[0] && address[0] < 240 {
        return Some([1, 0, 94, address[1] % 128, address[2], address[3]]);
    }
    None
}
