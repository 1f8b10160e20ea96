//! The figures of the process for metrics: its sessions, its links, its start and its memory.

ghost use Rattle.std.specs.Prelude.{◌≡◌, ◌++◌, OnOk};
ghost use Rattle.click_prog.specs.Figures.{family_text, line_text, link_line_text, metric_text, value_text};

use crate::link_count::{LINK_COUNTS, LinkCount};
use crate::process_memory::read_memory;
use crate::session_counts::SessionCounts;
use click_links::{CountSnapshot, Device};
use click_page::{Figures, push_escaped};
use itoa::Buffer;
use jiff::Timestamp;
use std::alloc::{AllocError, Global};

/// The figures of a process that serves sessions: the counts of its sessions and links, the time of
/// its start, and the memory that it uses.
///
/// No contract mentions the values.
#[derive(Drop)]
pub struct ProcessFigures<'a> {
    pub host: &'a HostRuntime,
    pub sessions: &'a SessionCounts,
    /// The number of session slots.
    pub slots: usize,
    /// The devices of the links.
    pub devices: &'a [Device],
    /// The time at which the run began, in seconds since 1970 in UTC, if the clock could be read.
    pub start: Option<u64>,
}

impl<'a> ProcessFigures<'a> {
    /// Returns the figures of a process without links. Reads the clock.
    pub fn new(
        host: &'a HostRuntime,
        sessions: &'a SessionCounts,
        slots: usize,
    ) -> ProcessFigures<'a> {
        ProcessFigures {
            host,
            sessions,
            slots,
            devices: &[],
            start: second_of_now(host),
        }
    }

    /// Returns these figures with those of the links of these devices.
    pub fn with_links<'b>(self, devices: &'b [Device]) -> ProcessFigures<'b>
    where
        'a: 'b,
    {
        ProcessFigures {
            host: self.host,
            sessions: self.sessions,
            slots: self.slots,
            devices,
            start: self.start,
        }
    }
}

impl Figures for ProcessFigures<'_> {
    ghost gives = { λ _ _. Unit {0} };

    fn push_to(&self, text: &mut Vec<u8>) -> Result<(), AllocError> {
        let mut figures = Vec::new(self.host.alloc());
        push_sessions(&mut figures, self.sessions, self.slots)?;
        push_links(self.host.alloc(), &mut figures, self.devices)?;
        push_start(&mut figures, self.start)?;
        push_memory(self.host, &mut figures)?;
        text.extend_from_slice(figures.as_slice())?;
        Ok(())
    }
}

/// Appends the counts of sessions.
fn push_sessions(
    text: &mut Vec<u8>,
    sessions: &SessionCounts,
    slots: usize,
) -> Result<(), AllocError> {
    let (open, begun) = (sessions.open(), sessions.begun());
    push_metric(
        text,
        b"click_sessions",
        b"Number of open sessions.",
        b"gauge",
        open,
    )?;
    push_metric(
        text,
        b"click_session_slots",
        b"Number of session slots.",
        b"gauge",
        slots as u64,
    )?;
    push_metric(
        text,
        b"click_sessions_total",
        b"Number of sessions that have begun.",
        b"counter",
        begun,
    )
}

/// Appends the counts of the links of these devices, if there are any.
fn push_links(alloc: Global, text: &mut Vec<u8>, devices: &[Device]) -> Result<(), AllocError> {
    if devices.is_empty() {
        return Ok(());
    }
    let mut counted = Vec::with_capacity(alloc, devices.len())?;
    for device in devices {
        counted.push(device.counts.read())?;
    }
    for link_count in LINK_COUNTS {
        push_link_count(text, link_count, devices, &counted)?;
    }
    Ok(())
}

/// Appends one count of the links, with a line for each device.
fn push_link_count(
    text: &mut Vec<u8>,
    link_count: LinkCount,
    devices: &[Device],
    counted: &[CountSnapshot],
) -> Result<(), AllocError> {
    push_family(text, link_count.metric(), link_count.help(), b"counter")?;
    for (device, counted) in devices.iter().zip(counted) {
        let value = link_count.value(counted);
        push_link_line(text, link_count.metric(), device.name.as_slice(), value)?;
    }
    Ok(())
}

/// Appends the line of a metric of the link of a device.
fn push_link_line(
    text: &mut Vec<u8>,
    metric: &[u8],
    device: &[u8],
    value: u64,
) -> Result<(), AllocError>
    ensures { OnOk result (text.new.items ≡ text.old.items ++ link_line_text metric.now device.now value) }
{
    text.extend_from_slice(metric)?;
    text.extend_from_slice(b"{device=\"")?;
    push_escaped(text, device)?;
    text.extend_from_slice(b"\"}")?;
    push_value(text, value)
}

/// Returns the time of the system's clock, in seconds since 1970 in UTC. Returns `None` if the clock
/// cannot be read, or if it has an earlier time.
fn second_of_now(host: &HostRuntime) -> Option<u64> {
    let time = Timestamp::now(host).ok()?;
    u64::try_from(time.as_second()).ok()
}

/// Appends the time of the start, if there is one.
fn push_start(text: &mut Vec<u8>, start: Option<u64>) -> Result<(), AllocError> {
    let Some(second) = start else {
        return Ok(());
    };
    push_metric(
        text,
        b"process_start_time_seconds",
        b"Time at which the run began, in seconds since 1970 in UTC.",
        b"gauge",
        second,
    )
}

/// Appends the memory of the process, if it can be read.
fn push_memory(host: &HostRuntime, text: &mut Vec<u8>) -> Result<(), AllocError> {
    let Some(memory) = read_memory(host) else {
        return Ok(());
    };
    push_metric(
        text,
        b"process_resident_memory_bytes",
        b"Number of bytes of the process that lie in memory.",
        b"gauge",
        memory.resident,
    )?;
    push_metric(
        text,
        b"process_virtual_memory_bytes",
        b"Number of bytes that the process has mapped.",
        b"gauge",
        memory.mapped,
    )
}

/// Appends a metric without labels.
fn push_metric(
    text: &mut Vec<u8>,
    metric: &[u8],
    help: &[u8],
    kind: &[u8],
    value: u64,
) -> Result<(), AllocError>
    ensures { OnOk result (text.new.items ≡ text.old.items ++ metric_text metric.now help.now kind.now value) }
{
    push_family(text, metric, help, kind)?;
    push_line(text, metric, value)
}

/// Appends the lines that begin a metric: its description and its type.
fn push_family(
    text: &mut Vec<u8>,
    metric: &[u8],
    help: &[u8],
    kind: &[u8],
) -> Result<(), AllocError>
    ensures { OnOk result (text.new.items ≡ text.old.items ++ family_text metric.now help.now kind.now) }
{
    text.extend_from_slice(b"# HELP ")?;
    text.extend_from_slice(metric)?;
    text.extend_from_slice(b" ")?;
    text.extend_from_slice(help)?;
    text.extend_from_slice(b"\n# TYPE ")?;
    text.extend_from_slice(metric)?;
    text.extend_from_slice(b" ")?;
    text.extend_from_slice(kind)?;
    text.extend_from_slice(b"\n")?;
    Ok(())
}

/// Appends the line of a metric without labels.
fn push_line(text: &mut Vec<u8>, metric: &[u8], value: u64) -> Result<(), AllocError>
    ensures { OnOk result (text.new.items ≡ text.old.items ++ line_text metric.now value) }
{
    text.extend_from_slice(metric)?;
    push_value(text, value)
}

/// Appends the end of a line: a blank and the value.
fn push_value(text: &mut Vec<u8>, value: u64) -> Result<(), AllocError>
    ensures { OnOk result (text.new.items ≡ text.old.items ++ value_text value) }
{
    text.extend_from_slice(b" ")?;
    text.extend_from_slice(Buffer::new().format(value).as_bytes())?;
    text.extend_from_slice(b"\n")?;
    Ok(())
}
