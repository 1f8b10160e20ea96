//! Plays a case.

use crate::desk::{Stage, discard, play_at};
use crate::report::Report;
use crate::script::{Case, Step, Trouble, cut, number_of};
use crate::sessions::{Said, run_once};
use crate::texts::show;
use click_handlers::{Table, TakesTable};
use click_router::Handlers;
use std::alloc::Global;
use std::sync::Wait;
use std::thread::Threads;

/// A case that is played.
#[derive(Drop)]
pub struct Play<'a> {
    pub alloc: Global,
    pub report: &'a Report<'a>,
    pub case: &'a Case<'a>,
    /// The size of the pieces of sessions, if the step names none.
    pub pieces: usize,
}

/// The outcome of a case.
#[derive(Drop)]
pub enum Outcome {
    Passed,
    /// The reply or output of the step of this number was not the expected one.
    Differs { index: usize, said: Said },
    /// The session of a step ran out of memory, and the case has to be played again.
    Again { line: usize },
    /// The step of this number cannot be played.
    Trouble { line: usize, trouble: Trouble },
}

impl<'a> TakesTable for Play<'a> {
    type Out = Outcome;

    fn take<R: Threads + Wait + Sync>(self, rt: &R, table: Table) -> Outcome {
        play_steps(rt, table, &self)
    }
}

/// Plays the steps of a case, up to the first one that differs from what is expected.
fn play_steps<T: Handlers + Drop, R: Threads + Wait + Sync>(
    rt: &R,
    table: T,
    play: &Play<'_>,
) -> Outcome {
    let mut stage = Stage::None(table);
    for (index, lines) in play.case.steps.iter().enumerate() {
        let step = lines.step();
        match play_again(rt, play, stage, &step) {
            Ok((next, said)) => {
                if !is_expected(&said, &step) {
                    discard(next);
                    return differing(play, index, &step, said);
                }
                stage = next;
            }
            Err(trouble) => {
                return Outcome::Trouble {
                    line: step.line,
                    trouble,
                };
            }
        }
    }
    discard(stage);
    Outcome::Passed
}

/// Returns the outcome of a case with a step that differs from what is expected.
///
/// A session may have made some of its calls before it ran out of memory, so with `--again` the
/// whole case is played again.
fn differing(play: &Play<'_>, index: usize, step: &Step<'_>, said: Said) -> Outcome {
    if play.report.again && is_session(step) && is_out_of_memory(&said) {
        Outcome::Again { line: step.line }
    } else {
        Outcome::Differs { index, said }
    }
}

fn is_session(step: &Step<'_>) -> bool {
    step.who == b"session".as_slice()
}

fn is_out_of_memory(said: &Said) -> bool {
    said.reply.as_slice() == b"out of memory".as_slice()
}

/// Returns whether the reply and the output of a step are the expected ones.
fn is_expected(said: &Said, step: &Step<'_>) -> bool {
    said.reply.as_slice() == step.wanted && said.output.as_slice() == step.output
}

/// Plays a step, and with `--again` once more if its reply is `out of memory`.
fn play_again<'a, T: Handlers + Drop, R: Threads + Wait + Sync>(
    rt: &'a R,
    play: &Play<'_>,
    stage: Stage<'a, T, R>,
    step: &Step<'_>,
) -> Result<(Stage<'a, T, R>, Said), Trouble> {
    let (stage, said) = play_step(rt, play, stage, step)?;
    if play.report.again
        && is_out_of_memory(&said)
        && !is_expected(&said, step)
        && !is_session(step)
    {
        play.report.called_again(step.line);
        return play_step(rt, play, stage, step);
    }
    Ok((stage, said))
}

/// Plays a step.
fn play_step<'a, T: Handlers + Drop, R: Threads + Wait + Sync>(
    rt: &'a R,
    play: &Play<'_>,
    stage: Stage<'a, T, R>,
    step: &Step<'_>,
) -> Result<(Stage<'a, T, R>, Said), Trouble> {
    match step.who {
        b"session" => in_session(rt, play, stage, step),
        b"run" | b"port" => match run_once(rt, play.alloc, step, play.pieces) {
            Ok(said) => Ok((stage, said)),
            Err(trouble) => {
                discard(stage);
                Err(trouble)
            }
        },
        _ => without_bytes(rt, play, stage, step),
    }
}

/// Plays a step without input and output.
fn without_bytes<'a, T: Handlers + Drop, R: Wait>(
    rt: &'a R,
    play: &Play<'_>,
    stage: Stage<'a, T, R>,
    step: &Step<'_>,
) -> Result<(Stage<'a, T, R>, Said), Trouble> {
    match pure_reply(play.alloc, step) {
        Ok(Some(reply)) => Ok((stage, plain(play.alloc, reply))),
        Ok(None) => {
            let (stage, reply) = play_at(rt, play.alloc, stage, step)?;
            Ok((stage, plain(play.alloc, reply)))
        }
        Err(trouble) => {
            discard(stage);
            Err(trouble)
        }
    }
}

/// Returns the reply of a pure step, or None if the step is another one.
///
/// The step has no input and no output.
fn pure_reply(alloc: Global, step: &Step<'_>) -> Result<Option<Vec<u8>>, Trouble> {
    if !step.input.is_empty() || !step.output.is_empty() {
        return Err(Trouble::Malformed);
    }
    show(alloc, step)
}

/// Returns the outcome of a step without output.
fn plain(alloc: Global, reply: Vec<u8>) -> Said {
    Said {
        reply,
        output: Vec::new(alloc),
    }
}

/// Plays a session at a seat of the desk.
fn in_session<'a, T: Handlers + Drop, R: Wait>(
    rt: &'a R,
    play: &Play<'_>,
    stage: Stage<'a, T, R>,
    step: &Step<'_>,
) -> Result<(Stage<'a, T, R>, Said), Trouble> {
    match stage {
        Stage::Open(seated) => {
            let (seat, _options) = cut(step.words, b' ');
            let number = number_of(seat)?;
            let mut seated = seated;
            let said = seated.session(rt, play.alloc, number, step, play.pieces)?;
            Ok((Stage::Open(seated), said))
        }
        Stage::None(_table) => Err(Trouble::Malformed),
        Stage::Closed(_closed) => Err(Trouble::Malformed),
    }
}

/// Returns whether a case is played twice: it has a session whose words name no size of pieces.
pub fn is_played_twice(case: &Case<'_>) -> bool {
    case.steps
        .iter()
        .any(|lines| has_unsized_pieces(&lines.step()))
}

fn has_unsized_pieces(step: &Step<'_>) -> bool {
    let speaks = matches!(step.who, b"session" | b"run" | b"port");
    let is_sized = step
        .words
        .split(|byte| *byte == b' ')
        .any(|word| word.starts_with(b"pieces="));
    speaks && !is_sized
}
