//! Plays test scripts: makes the calls of their steps and compares the replies with those expected.
#![tactic(auto)]

mod calls;
mod closed;
mod desk;
mod devices;
mod failures;
mod feeds;
mod links;
mod options;
mod playing;
mod replies;
mod report;
mod script;
mod seated;
mod sessions;
mod stand_in;
mod texts;

use click_handlers::with_table;
use playing::{Outcome, Play, is_played_twice};
use report::{Report, Status};
use script::{Case, cases_of};
use std::io::ErrorKind;
use std::process::ExitCode;
use std::sync::Wait;
use std::thread::Threads;
use std::{env, fs};

/// The sizes of pieces with which sessions are played.
const LARGE_PIECES: usize = 4096;

const SMALL_PIECES: usize = 1;

fn main(rt: HostRuntime) -> ExitCode {
    ExitCode::from(program(&rt, &rt).code())
}

/// The numbers of cases that passed and that failed.
#[derive(Clone, Copy)]
struct Tally {
    passed: usize,
    failed: usize,
}

/// Reads the command line and plays the scripts that it names.
fn program<R: Threads + Wait + Sync>(rt: &R, host: &HostRuntime) -> Status {
    let words = match env::args(host) {
        Ok(words) => words,
        Err(error) if error.kind() == ErrorKind::OutOfMemory => return Status::NoMemory,
        Err(_) => {
            // A failed write does not change the status.
            let _ = eprintln!(host; "click_player: an argument is not UTF-8");
            return Status::Wrong;
        }
    };
    let Ok(words) = words.collect::<Vec<String>>(host.alloc()) else {
        return Status::NoMemory;
    };
    let again = match words.get(1) {
        Some(word) => word.as_bytes() == b"--again".as_slice(),
        None => false,
    };
    let first = if again { 2 } else { 1 };
    match words.get(first..) {
        Some(files) if !files.is_empty() => play_files(rt, host, again, files),
        _ => {
            let _ = eprintln!(host; "usage: click_player [--again] FILE..");
            Status::Wrong
        }
    }
}

/// Plays the scripts of these files, and reports the numbers of cases that passed and that failed.
fn play_files<R: Threads + Wait + Sync>(
    rt: &R,
    host: &HostRuntime,
    again: bool,
    files: &[String],
) -> Status {
    let mut tally = Tally {
        passed: 0,
        failed: 0,
    };
    for file in files {
        let report = Report {
            host,
            file: file.as_str(),
            again,
        };
        match play_file(rt, &report, tally) {
            Ok(next) => tally = next,
            Err(status) => return status,
        }
    }
    let Tally { passed, failed } = tally;
    match println!(host; "{passed} cases passed, {failed} failed") {
        Ok(()) if failed == 0 => Status::Passed,
        Ok(()) => Status::Failed,
        Err(_) => Status::DeviceFailed,
    }
}

/// Plays the script of a file.
fn play_file<R: Threads + Wait + Sync>(
    rt: &R,
    report: &Report<'_>,
    tally: Tally,
) -> Result<Tally, Status> {
    let bytes = match fs::read(report.host, report.file) {
        Ok(bytes) => bytes,
        Err(error) if error.kind() == ErrorKind::OutOfMemory => return Err(Status::NoMemory),
        Err(error) => {
            let file = report.file;
            let _ = eprintln!(report.host; "click_player: {file}: {error}");
            return Err(Status::DeviceFailed);
        }
    };
    let cases = match cases_of(report.host.alloc(), bytes.as_slice()) {
        Ok(cases) => cases,
        Err(fault) => return Err(report.faulty(fault)),
    };
    let mut tally = tally;
    for case in &cases {
        if play_case(rt, report, case)? {
            tally.passed = tally.passed.saturating_add(1);
        } else {
            tally.failed = tally.failed.saturating_add(1);
        }
    }
    Ok(tally)
}

/// Plays a case, and returns whether it passed.
///
/// A case with a session that names no size of its pieces is played with large and with small ones.
fn play_case<R: Threads + Wait + Sync>(
    rt: &R,
    report: &Report<'_>,
    case: &Case<'_>,
) -> Result<bool, Status> {
    let passed = play_once(rt, report, case, LARGE_PIECES)?;
    if passed && is_played_twice(case) {
        return play_once(rt, report, case, SMALL_PIECES);
    }
    Ok(passed)
}

/// Plays a case, and once more if its session ran out of memory. Returns whether it passed.
fn play_once<R: Threads + Wait + Sync>(
    rt: &R,
    report: &Report<'_>,
    case: &Case<'_>,
    pieces: usize,
) -> Result<bool, Status> {
    match outcome_of(rt, report, case, pieces)? {
        Outcome::Again { line } => {
            report.called_again(line);
            let outcome = outcome_of(rt, report, case, pieces)?;
            conclude(report, case, outcome)
        }
        outcome => conclude(report, case, outcome),
    }
}

/// Plays a case, and returns its outcome.
fn outcome_of<R: Threads + Wait + Sync>(
    rt: &R,
    report: &Report<'_>,
    case: &Case<'_>,
    pieces: usize,
) -> Result<Outcome, Status> {
    let alloc = report.host.alloc();
    let play = Play {
        alloc,
        report,
        case,
        pieces,
    };
    match with_table(rt, alloc, play) {
        Ok(outcome) => Ok(outcome),
        Err(_) => Err(Status::NoMemory),
    }
}

/// Reports the outcome of a case, and returns whether it passed.
fn conclude(report: &Report<'_>, case: &Case<'_>, outcome: Outcome) -> Result<bool, Status> {
    match outcome {
        Outcome::Passed => Ok(true),
        Outcome::Again { .. } => Err(Status::NoMemory),
        Outcome::Trouble { line, trouble } => Err(report.troubled(line, trouble)),
        Outcome::Differs { index, said } => match case.steps.get(index) {
            Some(lines) => match report.differs(report.host.alloc(), case, &lines.step(), &said) {
                Ok(true) => Ok(false),
                Ok(false) => Err(Status::DeviceFailed),
                Err(_) => Err(Status::NoMemory),
            },
            None => Err(Status::Wrong),
        },
    }
}
