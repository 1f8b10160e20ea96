//! A session with each of its reads, or each of its writes, failing in turn.

use crate::devices::GREETING_BYTES;
use crate::options::Attempt;
use crate::replies::{GREETING, Said};
use crate::script::{Step, Trouble, number_of};
use crate::sessions::{Kind, play};
use std::alloc::{AllocError, Global};
use std::sync::Wait;
use std::thread::Threads;

/// Plays a step once for each read, from the first to the one at the end of the input.
///
/// Reads return one byte, and the last one fails. Exactly the groups whose input was read
/// completely have to be answered. The step's reply is `read failed, N N .. calls`. The numbers are
/// those of the session's calls after no group, after the first, after the first two, and so on.
pub fn each_read<R: Threads + Wait + Sync>(
    rt: &R,
    alloc: Global,
    step: &Step<'_>,
    kind: Kind<'_>,
    attempt: &Attempt<'_>,
) -> Result<Said, Trouble> {
    let counts = counts_of(alloc, step, b"read failed, ")?;
    for read in 0..=step.input.len() {
        let nth = read.saturating_add(1);
        let said = play(rt, alloc, kind, &attempt.with_failed_read(nth))?;
        let groups = step
            .groups
            .iter()
            .filter(|group| group.input <= read)
            .count();
        let output = output_of(step, groups);
        let reply = reply_of(alloc, "read failed", counts.as_slice(), groups, true)?;
        if !said.is(reply.as_slice(), output) {
            return said.at(alloc, "read", nth);
        }
    }
    Said::wanted(alloc, step)
}

/// Plays a step once for each byte of the greeting and of its output.
///
/// Writes take one byte, and the last one fails. The session has to write the bytes before it, and
/// the whole output if no write fails. The step's reply is `write failed, N N .. calls`. The
/// numbers are those of the session's calls before the greeting is written completely, after it,
/// after the output of the first group, and so on.
pub fn each_write<R: Threads + Wait + Sync>(
    rt: &R,
    alloc: Global,
    step: &Step<'_>,
    kind: Kind<'_>,
    attempt: &Attempt<'_>,
) -> Result<Said, Trouble> {
    let counts = counts_of(alloc, step, b"write failed, ")?;
    for taken in 0..GREETING_BYTES.saturating_add(step.output.len()) {
        let nth = taken.saturating_add(1);
        let said = play(rt, alloc, kind, &attempt.with_failed_write(nth))?;
        let (parts, output) = taken_of(step, taken);
        let reply = reply_of(alloc, "write failed", counts.as_slice(), parts, parts > 0)?;
        if !said.is(reply.as_slice(), output) {
            return said.at(alloc, "write", nth);
        }
    }
    let whole = play(rt, alloc, kind, &attempt.with_failed_write(0))?;
    if whole.output.as_slice() == step.output {
        Said::wanted(alloc, step)
    } else {
        whole.at(alloc, "write", 0)
    }
}

/// Returns what is written after this number of bytes.
///
/// The number counts the greeting and the outputs of groups that are complete. The bytes are those
/// after the greeting, or those of the greeting if it is not complete.
fn taken_of<'a>(step: &Step<'a>, taken: usize) -> (usize, &'a [u8]) {
    match taken.checked_sub(GREETING_BYTES) {
        None => (0, first_bytes(GREETING, taken)),
        Some(taken) => {
            let whole = step
                .groups
                .iter()
                .filter(|group| group.output <= taken)
                .count();
            (whole.saturating_add(1), first_bytes(step.output, taken))
        }
    }
}

/// Returns the output of the first groups of a step.
fn output_of<'a>(step: &Step<'a>, groups: usize) -> &'a [u8] {
    match groups.checked_sub(1) {
        None => b"",
        Some(last) => match step.groups.get(last) {
            None => step.output,
            Some(group) => first_bytes(step.output, group.output),
        },
    }
}

/// Returns the first bytes of a text, or all if it has fewer.
fn first_bytes(bytes: &[u8], count: usize) -> &[u8] {
    match bytes.get(..count) {
        Some(first) => first,
        None => bytes,
    }
}

/// Returns the numbers of calls in a step's reply, one more than the step has groups.
fn counts_of(alloc: Global, step: &Step<'_>, front: &[u8]) -> Result<Vec<usize>, Trouble> {
    let Some(rest) = step.wanted.strip_prefix(front) else {
        return Err(Trouble::Malformed);
    };
    let Some(numbers) = rest.strip_suffix(b" calls".as_slice()) else {
        return Err(Trouble::Malformed);
    };
    let mut counts = Vec::new(alloc);
    for word in numbers.split(|byte| *byte == b' ') {
        push_count(&mut counts, number_of(word)?)?;
    }
    if counts.len() == step.groups.len().saturating_add(1) {
        Ok(counts)
    } else {
        Err(Trouble::Malformed)
    }
}

fn push_count(counts: &mut Vec<usize>, count: usize) -> Result<(), AllocError> {
    Ok(counts.push(count)?)
}

/// Returns the reply of a session that failed after some groups.
fn reply_of(
    alloc: Global,
    end: &str,
    counts: &[usize],
    groups: usize,
    greeted: bool,
) -> Result<Vec<u8>, Trouble> {
    let Some(calls) = counts.get(groups) else {
        return Err(Trouble::Malformed);
    };
    let tail = if greeted { "" } else { ", no greeting" };
    Ok(format!(in alloc; "{end}, {calls} calls{tail}")?.into_bytes())
}
