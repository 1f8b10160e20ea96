//! Numbers in the byte order of a capture.

ghost use Rattle.std.specs.Prelude.{◌≡◌, ◌+◌, ◌≤◌, ◌++◌, length};
ghost use Rattle.click_capture.specs.Numbers.{word, half};

/// The order of a number's bytes: that of the machine that wrote the capture.
#[derive(Clone, Copy, Debug, PartialEq, Eq)]
pub enum Order {
    /// The lowest byte comes first.
    Little,
    /// The highest byte comes first.
    Big,
}

impl Order {
    /// Returns the number as four bytes.
    ///
    /// perf: the two orders meet in one number, which is stored at once; four bytes would be moved
    /// one by one.
    pub(crate) fn u32_bytes(self, number: u32) -> [u8; 4]
        ensures { result ≡ word self number }
    {
        self.as_little(number).to_le_bytes()
    }

    /// Returns the number whose bytes, the lowest first, are those of `number` in this order.
    fn as_little(self, number: u32) -> u32
        ensures { word Order.Little result ≡ word self number }
    {
        match self {
            Order::Little => number,
            Order::Big => u32::from_le_bytes(number.to_be_bytes()),
        }
    }

    /// Returns the number as two bytes.
    pub(crate) fn u16_bytes(self, number: u16) -> [u8; 2]
        ensures { result ≡ half self number }
    {
        match self {
            Order::Little => number.to_le_bytes(),
            Order::Big => number.to_be_bytes(),
        }
    }

    /// Returns the number in the first four bytes, and the bytes after it.
    pub(crate) fn split_u32(self, bytes: &[u8]) -> (u32, &[u8])
        requires { 4 ≤ length bytes.now }
        ensures parts { bytes.now ≡ word self result.0 ++ result.1.now }
        ensures rest { length result.1.now + 4 ≡ length bytes.now }
    {
        let (front, rest) = bytes.split_at(4);
        (self.number([front[0], front[1], front[2], front[3]]), rest)
    }

    /// Returns the number in the first two bytes, and the bytes after it.
    pub(crate) fn split_u16(self, bytes: &[u8]) -> (u16, &[u8])
        requires { 2 ≤ length bytes.now }
        ensures parts { bytes.now ≡ half self result.0 ++ result.1.now }
        ensures rest { length result.1.now + 2 ≡ length bytes.now }
    {
        let (front, rest) = bytes.split_at(2);
        (self.short([front[0], front[1]]), rest)
    }

    /// Returns the number with these four bytes.
    fn number(self, bytes: [u8; 4]) -> u32
        ensures { word self result ≡ bytes }
    {
        match self {
            Order::Little => u32::from_le_bytes(bytes),
            Order::Big => u32::from_be_bytes(bytes),
        }
    }

    /// Returns the number with these two bytes.
    fn short(self, bytes: [u8; 2]) -> u16
        ensures { half self result ≡ bytes }
    {
        match self {
            Order::Little => u16::from_le_bytes(bytes),
            Order::Big => u16::from_be_bytes(bytes),
        }
    }
}
