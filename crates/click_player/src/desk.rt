//! Steps at a desk.

ghost use Rattle.std.specs.Prelude.{◌≡◌, true, IfOk};
ghost use Rattle.std.specs.List.{All};
ghost use Rattle.click_rings.specs.Feeds.{have_distinct_devices};

use crate::calls::{call_of, reply_shown};
use crate::closed::Closed;
use crate::feeds::{Driver, NoFeeds, are_inlets_of, feeds_of};
use crate::links::{counts_text, links_of, received_text, sweep_text, turn_text};
use crate::script::{Step, Trouble, cut, number_of};
use crate::seated::{Close, Seated};
use click_desk::{Desk, DeskFault, OpenFault, OpenRefused, Seat, View};
use click_rings::Inlet;
use click_router::{Check, Handlers};
use std::alloc::{AllocError, Global};
use std::sync::Wait;

/// The desk of a case.
#[derive(Drop)]
pub enum Stage<'a, T: Drop, R: Wait> {
    /// No desk is open. The table is for the next one.
    None(T),
    Open(Seated<'a, T, R>),
    Closed(Closed<T>),
}

/// Drops a stage. The borrow checker covers the drop of each of its parts, but not of the whole
/// enum.
pub fn discard<'a, T: Drop, R: Wait>(stage: Stage<'a, T, R>) {
    match stage {
        Stage::None(_table) => {}
        Stage::Open(_seated) => {}
        Stage::Closed(_closed) => {}
    }
}

/// The desk after a step, and the reply of the step.
pub type Done<'a, T, R> = (Stage<'a, T, R>, Vec<u8>);

/// Plays a step at a desk, and returns its reply.
pub fn play_at<'a, T: Handlers + Drop, R: Wait>(
    rt: &'a R,
    alloc: Global,
    stage: Stage<'a, T, R>,
    step: &Step<'_>,
) -> Result<Done<'a, T, R>, Trouble> {
    match stage {
        Stage::None(table) => {
            if step.who == b"open".as_slice() {
                open(rt, alloc, table, step.words)
            } else {
                Err(Trouble::Malformed)
            }
        }
        Stage::Open(seated) => {
            if step.who == b"close".as_slice() {
                return close(rt, alloc, seated, step.words);
            }
            let mut seated = seated;
            let shown = at_open(rt, alloc, &mut seated, step)?;
            Ok((Stage::Open(seated), shown))
        }
        Stage::Closed(closed) => {
            let mut closed = closed;
            let shown = closed.play(alloc, step)?;
            Ok((Stage::Closed(closed), shown))
        }
    }
}

/// The options of opening a desk.
#[derive(Clone, Copy)]
struct Options<'a> {
    /// None for a live desk.
    room: Option<usize>,
    seats: usize,
    views: usize,
    feeds: &'a [u8],
}

/// Returns the options of opening a desk, and the text after them.
fn options_of(words: &[u8]) -> Result<(Options<'_>, &[u8]), Trouble> {
    let mut options = Options {
        room: Some(1000),
        seats: 1,
        views: 0,
        feeds: b"",
    };
    let mut rest = words;
    for _ in 0..words.len() {
        let (word, behind) = cut(rest, b' ');
        let (name, value) = cut(word, b'=');
        match name {
            b"room" if value == b"live".as_slice() => options.room = None,
            b"room" => options.room = Some(number_of(value)?),
            b"seats" => options.seats = number_of(value)?,
            b"views" => options.views = number_of(value)?,
            b"feeds" => options.feeds = value,
            _ => return Ok((options, rest)),
        }
        rest = behind;
    }
    Ok((options, rest))
}

/// Opens a desk.
fn open<'a, T: Drop, R: Wait>(
    rt: &'a R,
    alloc: Global,
    table: T,
    words: &[u8],
) -> Result<Done<'a, T, R>, Trouble> {
    let (options, text) = options_of(words)?;
    match feeds_of(alloc, options.feeds) {
        Ok((drivers, inlets)) => open_with(rt, alloc, table, text, &options, drivers, inlets),
        Err(NoFeeds::Trouble(trouble)) => Err(trouble),
        Err(NoFeeds::Feed(fault)) => {
            let shown = format!(in alloc; "{fault}")?.into_bytes();
            Ok((Stage::None(table), shown))
        }
    }
}

/// An opened desk with its seats and views, or what was handed in and the reason of the refusal.
type Opened<'a, T, R> = Result<(Desk<T, &'a R>, Vec<Seat<T>>, Vec<View>), OpenRefused<T>>;

/// Opens a desk with these inlets; a live desk if the options have no room.
fn open_sized<'a, T: Drop, R: Wait>(
    rt: &'a R,
    alloc: Global,
    table: T,
    text: &[u8],
    options: &Options<'_>,
    inlets: Vec<Inlet>,
) -> Opened<'a, T, R>
    ensures seats { IfOk result (λ r. All (λ s. s.desk ≡ r.0) r.1.items) }
    ensures fed { IfOk result (λ r. All (λ s. s.feeds ≡ inlets.items) r.1.items) }
    ensures apart { IfOk result (λ r. have_distinct_devices inlets.items ≡ true) }
    ensures views { IfOk result (λ r. All (λ v. v.board ≡ r.0.options.origin) r.2.items) }
{
    match options.room {
        None => Desk::open_live(rt, alloc, table, text, options.seats, inlets, options.views),
        Some(room) => Desk::open_with_views(
            rt,
            alloc,
            table,
            text,
            room,
            options.seats,
            inlets,
            options.views,
        ),
    }
}

/// Opens a desk with the inlets of these drivers.
fn open_with<'a, T: Drop, R: Wait>(
    rt: &'a R,
    alloc: Global,
    table: T,
    text: &[u8],
    options: &Options<'_>,
    drivers: Vec<Driver>,
    inlets: Vec<Inlet>,
) -> Result<Done<'a, T, R>, Trouble>
    requires { drivers.items ≡ inlets.items }
{
    match open_sized(rt, alloc, table, text, options, inlets) {
        Ok((desk, seats, views)) => {
            let shown = Vec::from_slice(alloc, b"opened")?;
            let seated = Seated::new(desk, seats, views, drivers);
            Ok((Stage::Open(seated), shown))
        }
        Err(refused) => {
            let OpenRefused {
                fault,
                inlets,
                table,
            } = refused;
            let shown = if are_inlets_of(&drivers, &inlets) {
                open_fault_text(alloc, &fault)?
            } else {
                Vec::from_slice(alloc, b"inlets lost")?
            };
            Ok((Stage::None(table), shown))
        }
    }
}

/// Returns the reason why a desk was not opened.
fn open_fault_text(alloc: Global, fault: &OpenFault) -> Result<Vec<u8>, AllocError> {
    match fault {
        OpenFault::Config(fault) => fault.text(alloc),
        _ => Ok(format!(in alloc; "{fault}")?.into_bytes()),
    }
}

/// Plays a step at an open desk that leaves it open.
fn at_open<'a, T: Handlers + Drop, R: Wait>(
    rt: &'a R,
    alloc: Global,
    seated: &mut Seated<'a, T, R>,
    step: &Step<'_>,
) -> Result<Vec<u8>, Trouble> {
    match step.who {
        b"put" => {
            let (device, digits) = cut(step.words, b' ');
            let word: &[u8] = if seated.put(alloc, device, digits)? {
                b"put"
            } else {
                b"full"
            };
            Ok(Vec::from_slice(alloc, word)?)
        }
        b"drop" => {
            seated.drop_feed(step.words)?;
            Ok(Vec::from_slice(alloc, b"dropped")?)
        }
        b"view" => viewed(alloc, seated, step.words),
        b"views" => counted(alloc, seated.view_count()),
        b"calls" => counted(alloc, seated.kept_calls(number_of(step.words)?)?),
        b"note" => {
            seated.keep_notice(number_of(step.words)?)?;
            Ok(Vec::from_slice(alloc, b"noted")?)
        }
        b"poll" => polled(rt, alloc, seated, step),
        b"round" => rounded(rt, alloc, seated, step.words),
        b"forward" => forwarded(rt, alloc, seated, step.words),
        b"sweep" => swept(rt, alloc, seated, step.words),
        b"links" | b"receive" | b"counts" | b"sent" => linked(alloc, seated, step),
        _ => {
            let call = call_of(alloc, step.words)?;
            let reply = seated.call(rt, number_of(step.who)?, call)?;
            Ok(reply_shown(alloc, &reply, step.wanted)?)
        }
    }
}

fn counted(alloc: Global, count: usize) -> Result<Vec<u8>, Trouble> {
    Ok(format!(in alloc; "{count}")?.into_bytes())
}

/// Plays a step of links that makes no call.
///
/// The steps are `links DEVICES NAMES MOST`, `receive DEVICE DATAGRAM ..`, `counts DEVICE` and
/// `sent DEVICE`.
fn linked<'a, T: Drop, R: Wait>(
    alloc: Global,
    seated: &mut Seated<'a, T, R>,
    step: &Step<'_>,
) -> Result<Vec<u8>, Trouble> {
    match step.who {
        b"links" => {
            seated.set_links(links_of(alloc, step.words)?);
            Ok(Vec::from_slice(alloc, b"linked")?)
        }
        b"receive" => {
            let (device, datagrams) = cut(step.words, b' ');
            let received = seated.receive(alloc, device, datagrams)?;
            Ok(received_text(alloc, &received)?)
        }
        b"counts" => Ok(counts_text(alloc, &seated.links()?.counts(step.words)?)?),
        b"sent" => Ok(seated.links()?.sent_shown(alloc, step.words)?),
        _ => Err(Trouble::Malformed),
    }
}

/// Makes a device turn. The words are the seat and the device.
fn forwarded<'a, T: Handlers + Drop, R: Wait>(
    rt: &'a R,
    alloc: Global,
    seated: &mut Seated<'a, T, R>,
    words: &[u8],
) -> Result<Vec<u8>, Trouble> {
    let (seat, device) = cut(words, b' ');
    match seated.forward(rt, alloc, number_of(seat)?, device)? {
        Ok(turn) => Ok(turn_text(alloc, &turn)?),
        Err(fault) => fault_shown(alloc, fault),
    }
}

/// Makes a sweep of all links, by a seat.
fn swept<'a, T: Handlers + Drop, R: Wait>(
    rt: &'a R,
    alloc: Global,
    seated: &mut Seated<'a, T, R>,
    words: &[u8],
) -> Result<Vec<u8>, Trouble> {
    match seated.sweep(rt, alloc, number_of(words)?)? {
        Ok(sweep) => Ok(sweep_text(alloc, &sweep)?),
        Err(fault) => fault_shown(alloc, fault),
    }
}

fn fault_shown(alloc: Global, fault: DeskFault) -> Result<Vec<u8>, Trouble> {
    Ok(format!(in alloc; "{fault}")?.into_bytes())
}

/// Makes a poll. The words are the seat, the device, and the maximum number of packets.
fn polled<'a, T: Handlers + Drop, R: Wait>(
    rt: &R,
    alloc: Global,
    seated: &mut Seated<'a, T, R>,
    step: &Step<'_>,
) -> Result<Vec<u8>, Trouble> {
    let (seat, rest) = cut(step.words, b' ');
    let (device, most) = cut(rest, b' ');
    let reply = seated.poll(rt, number_of(seat)?, device, number_of(most)?)?;
    Ok(reply_shown(alloc, &reply, step.wanted)?)
}

/// Makes a Round by a seat, as a driver does.
fn rounded<'a, T: Handlers + Drop, R: Wait>(
    rt: &R,
    alloc: Global,
    seated: &mut Seated<'a, T, R>,
    words: &[u8],
) -> Result<Vec<u8>, Trouble> {
    match seated.round(rt, number_of(words)?)? {
        Ok(count) => Ok(format!(in alloc; "worked {count}")?.into_bytes()),
        Err(fault) => fault_shown(alloc, fault),
    }
}

/// Makes a view learn, check or list names.
///
/// The words are `V learn SEAT`, `V learn note`, `V read NAME`, `V write NAME` or `V names`.
fn viewed<'a, T: Drop, R: Wait>(
    alloc: Global,
    seated: &mut Seated<'a, T, R>,
    words: &[u8],
) -> Result<Vec<u8>, Trouble> {
    let (view, rest) = cut(words, b' ');
    let (word, name) = cut(rest, b' ');
    let view = number_of(view)?;
    match word {
        b"learn" => {
            if name == b"note".as_slice() {
                seated.learn_kept(view)?;
            } else {
                seated.learn(view, number_of(name)?)?;
            }
            Ok(Vec::from_slice(alloc, b"learned")?)
        }
        b"read" => Ok(Vec::from_slice(alloc, check_text(seated.check(view, false, name)?))?),
        b"write" => Ok(Vec::from_slice(alloc, check_text(seated.check(view, true, name)?))?),
        b"names" => match seated.names(alloc, view)? {
            Some(names) => Ok(listed(alloc, &names)?),
            None => Ok(Vec::from_slice(alloc, b"out of memory")?),
        },
        _ => Err(Trouble::Malformed),
    }
}

fn check_text(check: Check) -> &'static [u8] {
    match check {
        Check::Yes => b"yes",
        Check::NoElement => b"NoElement",
        Check::NoHandler => b"NoHandler",
        Check::WrongWay => b"WrongWay",
    }
}

/// Returns the names with a blank after each.
fn listed(alloc: Global, names: &[Vec<u8>]) -> Result<Vec<u8>, AllocError> {
    let mut text = Vec::new(alloc);
    for name in names {
        text.extend_from_slice(name.as_slice())?;
        text.push(b' ')?;
    }
    Ok(text)
}

/// Closes a desk with the seats of these numbers.
fn close<'a, T: Drop, R: Wait>(
    rt: &'a R,
    alloc: Global,
    seated: Seated<'a, T, R>,
    words: &[u8],
) -> Result<Done<'a, T, R>, Trouble> {
    let mut numbers = Vec::new(alloc);
    for word in words.split(|byte| *byte == b' ') {
        numbers.push(number_of(word)?)?;
    }
    match seated.close(rt, alloc, numbers.as_slice())? {
        Close::Done(closed) => {
            let count = closed.count();
            let shown = format!(in alloc; "closed {count}")?.into_bytes();
            Ok((Stage::Closed(closed), shown))
        }
        Close::SeatsMissing(seated) => {
            let shown = Vec::from_slice(alloc, b"seats missing")?;
            Ok((Stage::Open(seated), shown))
        }
    }
}
