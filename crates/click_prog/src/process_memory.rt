//! The memory that the process uses, by the counts of Linux.

ghost use Rattle.std.specs.Prelude.{◌≤◌, length, IfOk};

use crate::number::number_in;
use std::fs::File;
use std::io::{self, Read};

/// The number of bytes of a page of memory, in which /proc/self/statm counts.
const PAGE_BYTES: u64 = 4096;

/// The greatest number of pages whose bytes fit into 64 bits.
const MAX_PAGES: u64 = u64::MAX / PAGE_BYTES;

/// The number of bytes that are read of /proc/self/statm. Its seven numbers are shorter.
const STATM_BYTES: usize = 160;

/// The memory of a process, in bytes.
#[derive(Clone, Copy, Debug, PartialEq, Eq)]
pub struct ProcessMemory {
    /// What lies in memory.
    pub resident: u64,
    /// What is mapped, in memory or not.
    pub mapped: u64,
}

/// Reads the memory of this process from /proc/self/statm. Returns `None` if the file cannot be
/// read.
pub fn read_memory(host: &HostRuntime) -> Option<ProcessMemory> {
    let mut buffer = [0; STATM_BYTES];
    let count = read_statm(host, &mut buffer).ok()?;
    memory_of(str::from_utf8(&buffer[..count]).ok()?)
}

/// Reads /proc/self/statm, and returns the number of bytes.
fn read_statm(host: &HostRuntime, buffer: &mut [u8]) -> io::Result<usize>
    ensures { IfOk result (λ count. count ≤ length buffer.old) }
{
    let mut file = File::open(host, "/proc/self/statm")?;
    file.read(buffer)
}

/// Returns the memory in a line of /proc/self/statm. Its first number is of the pages that are
/// mapped, and its second one of those that lie in memory.
fn memory_of(statm: &str) -> Option<ProcessMemory> {
    let (mapped, rest) = statm.split_once(' ')?;
    let (resident, _) = rest.split_once(' ')?;
    Some(ProcessMemory {
        resident: bytes_of(resident)?,
        mapped: bytes_of(mapped)?,
    })
}

/// Returns the number of bytes of this number of pages.
fn bytes_of(pages: &str) -> Option<u64> {
    let pages = number_in(pages, 0, MAX_PAGES)?;
    Some(pages * PAGE_BYTES)
}
