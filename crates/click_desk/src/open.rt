//! The opening of a desk.

ghost use Rattle.std.specs.Prelude.{◌≡◌, ◌≤◌, ◌<◌, ◌∷◌, [], ℕ, List, length, map, true, false, is_some, Some, None, IfOk, OnOk, IfErr, IfSome, IfNone, vec_capacity, nat_lt};
ghost use Rattle.std.specs.List.{All};
ghost use Rattle.crossbeam_queue.specs.Passes.{view, IsPassOf, ruled_capacity};
ghost use Rattle.click_router.specs.Opened.{IsOpened, IsFirstFault};
ghost use Rattle.click_desk.specs.History.{IsLegal};
ghost use Rattle.click_desk.specs.Views.{first, maker as maker_of};
ghost use Rattle.click_desk.specs.DeskSetups.{terms_of};
ghost use Rattle.click_desk.specs.SeatStates.{seats_below};
ghost use Rattle.click_desk.specs.Openings.{AreFit, IsOpenFault, IsViewFault, IsViewless};
ghost use Rattle.click_rings.specs.Feeds.{name_of};

use crate::desk::{Desk, give};
use crate::logged_router::{LoggedRouter, RouterLog};
use crate::options::DeskOptions;
use crate::rule::{DeskPass, Queue, SplitSeat};
use crate::seat::Seat;
use crate::trail::Trail;
use crate::watch::{Notice, View};
use click_rings::{FeedConsumer, Inlet, have_distinct_devices};
use click_router::{ConfigFault, FaultKind, Install, Prepared, Router, prepare};
use click_views::{InstallSignal, Publisher};
use std::alloc::{AllocError, Global};
use std::sync::Wait;
use std::sync::atomic::AtomicU32;
use thiserror::Error;

/// The maximum number of seats of a desk.
const MAX_SEATS: usize = 256;

/// The maximum number of inlets of a desk.
const MAX_INLETS: usize = 16;

/// The maximum number of views that a desk is opened with.
const MAX_VIEWS: usize = 16;

/// The fault for which a desk was not opened.
#[derive(Debug, Drop, Error)]
pub enum OpenFault {
    #[error("a desk has 1 to 256 seats")]
    SeatCount,
    #[error("two inlets are of one device")]
    DeviceTwice,
    #[error("a desk has at most 16 inlets")]
    InletCount,
    #[error("a desk is opened with at most 16 views")]
    ViewCount,
    /// The first fault of the configuration.
    #[error(transparent)]
    Config(ConfigFault),
    #[error("out of memory")]
    NoMemory,
    /// A view was given no handle that reads the install signal.
    #[error("no view")]
    NoView,
}

/// A desk that was not opened: what was handed in, and the fault.
#[derive(Drop)]
pub struct OpenRefused<T> {
    pub table: T,
    pub inlets: Vec<Inlet>,
    pub fault: OpenFault,
}

/// The sizes of a desk, except for its inlets. Without a `room` its history has no bound and is not
/// stored.
#[derive(Clone, Copy)]
struct Sizes {
    room: Option<usize>,
    seats: usize,
    views: usize,
}

/// All parts of a desk that need memory.
#[derive(Drop)]
struct Parts<T> {
    router_log: Box<RouterLog>,
    beside: DeskOptions,
    queue: Queue<T>,
    maker: DeskPass<T>,
    given: Vec<Seat<T>>,
    views: Vec<View>,
}

/// What a desk is built from, once nothing can fail any more.
struct Opening<T, S: Wait + Drop> {
    prepared: Prepared,
    install_signal: Option<InstallSignal<S>>,
    parts: Parts<T>,
}

/// Returns a router log without entries, with room for this many feeds. It stores its entries if
/// their number has a bound. Fails with out of memory.
fn empty_log(
    alloc: Global,
    options: DeskOptions,
    inlets: usize,
    published: Publisher<Install>,
) -> Result<Box<RouterLog>, AllocError>
    ensures { IfOk result (λ l. (l.value.options ≡ options) × (l.value.published ≡ published) × (l.value.entries.items ≡ []) × (l.value.entries.keeps ≡ is_some options.room) × (l.value.consumers.items ≡ []) × (inlets ≤ vec_capacity l.value.consumers)) }
{
    let keeps = options.room.is_some();
    let router_log = RouterLog {
        options,
        entries: Trail::new(alloc, keeps),
        consumers: Vec::with_capacity(alloc, inlets)?,
        published,
    };
    Ok(Box::new(alloc, router_log)?)
}

/// Makes the log of a desk of these sizes, and publishes the opening text in it. Fails with out of
/// memory.
fn open_ledger<R: Wait>(
    rt: &R,
    alloc: Global,
    text: &[u8],
    prepared: &Prepared,
    sizes: Sizes,
    inlets: usize,
) -> Result<Box<RouterLog>, AllocError>
    requires { IsOpened text.now prepared.now }
    ensures options { IfOk result (λ l. l.value.options ≡ record { opening = text.now; room = sizes.room; seats = sizes.seats; origin = l.value.published.board }) }
    ensures published { IfOk result (λ l. l.value.published ≡ record { board = l.value.published.board; list = text.now ∷ [] }) }
    ensures empty { IfOk result (λ l. (l.value.entries.items ≡ []) × (l.value.entries.keeps ≡ is_some sizes.room)) }
    ensures consumers { IfOk result (λ l. (l.value.consumers.items ≡ []) × (inlets ≤ vec_capacity l.value.consumers)) }
{
    let install = Install::of_prepared(alloc, text, prepared)?;
    // Without views, published configurations are not stored.
    let published = Publisher::open(rt, alloc, install, sizes.views > 0)?;
    let inside = DeskOptions::of(alloc, text, sizes.room, sizes.seats, published.origin())?;
    empty_log(alloc, inside, inlets, published)
}

/// Allocates all memory that a desk of these sizes needs. Fails with out of memory.
fn make_parts<T, R: Wait>(
    rt: &R,
    alloc: Global,
    text: &[u8],
    prepared: &Prepared,
    sizes: Sizes,
    inlets: usize,
) -> Result<Parts<T>, AllocError>
    requires { IsOpened text.now prepared.now }
    ensures options { IfOk result (λ p. (p.router_log.value.options ≡ record { opening = text.now; room = sizes.room; seats = sizes.seats; origin = p.router_log.value.published.board }) × (p.beside ≡ p.router_log.value.options)) }
    ensures published { IfOk result (λ p. p.router_log.value.published ≡ record { board = p.router_log.value.published.board; list = text.now ∷ [] }) }
    ensures empty { IfOk result (λ p. (p.router_log.value.entries.items ≡ []) × (p.router_log.value.entries.keeps ≡ is_some sizes.room)) }
    ensures queue { IfOk result (λ p. (ruled_capacity p.queue ≡ 1) × IsPassOf p.queue p.maker × (view p.maker ≡ first)) }
    ensures given { IfOk result (λ p. (p.given.items ≡ []) × (sizes.seats ≤ vec_capacity p.given)) }
    ensures views { IfOk result (λ p. (p.views.items ≡ []) × (sizes.views ≤ vec_capacity p.views)) }
    ensures consumers { IfOk result (λ p. (p.router_log.value.consumers.items ≡ []) × (inlets ≤ vec_capacity p.router_log.value.consumers)) }
{
    let router_log = open_ledger(rt, alloc, text, prepared, sizes, inlets)?;
    let origin = router_log.published.origin();
    let beside = DeskOptions::of(alloc, text, sizes.room, sizes.seats, origin)?;
    let given = Vec::with_capacity(alloc, sizes.seats)?;
    let views = Vec::with_capacity(alloc, sizes.views)?;
    let (queue, maker) = Queue::<T>::ruled(alloc, 1)?;
    Ok(Parts {
        router_log,
        beside,
        queue,
        maker,
        given,
        views,
    })
}

/// Opens the inlets. Never allocates.
fn open_all(inlets: Vec<Inlet>, consumers: &mut Vec<FeedConsumer>)
    requires { (consumers.old.items ≡ []) × (length inlets.items ≤ vec_capacity consumers.old) }
    ensures names { map name_of consumers.new.items ≡ inlets.items }
    ensures fresh { All (λ t. t.drawn ≡ []) consumers.new.items }
{
    for inlet in inlets {
        consumers.push_reserved(FeedConsumer::of(inlet));
    }
}

/// Creates the seats, numbered from 0. Never allocates.
fn make_seats<T>(
    alloc: Global,
    queue: &Queue<T>,
    mut maker: DeskPass<T>,
    keeps: bool,
    count: usize,
    given: &mut Vec<Seat<T>>,
    told: &Notice,
)
    requires queue { IsPassOf queue.now maker }
    requires maker { view maker ≡ maker_of (view maker).options 0 [] }
    requires legal { IsLegal (view maker).options.opening [] }
    requires keeps { keeps ≡ is_some (view maker).options.room }
    requires count { (view maker).options.seats ≡ count }
    requires given { (given.old.items ≡ []) × (count ≤ vec_capacity given.old) }
    requires told { told.now ≡ record { board = (view maker).options.origin; list = (view maker).options.opening ∷ [] } }
    ensures { given.new.items ≡ seats_below (record { table = queue.now.table.shared.table_id; options = terms_of (view maker).options }) (view maker).options.feeds count }
{
    for number in 0..count {
        let pass = queue.another::<SplitSeat>(&mut maker);
        given.push_reserved(Seat {
            pass,
            number,
            calls: Trail::new(alloc, keeps),
            notice: told.again(),
        });
    }
}

/// Opens the install signal for this many views, or returns `None` if there are none. Fails with
/// out of memory.
fn signal_for<'a, R: Wait>(
    rt: &'a R,
    alloc: Global,
    views: usize,
) -> Result<Option<InstallSignal<&'a R>>, AllocError>
    requires { views ≤ 16 }
    ensures { IfOk result (λ b. is_some b ≡ nat_lt 0 views) }
{
    if views == 0 {
        Ok(None)
    } else {
        Ok(Some(InstallSignal::open(rt, alloc, views)?))
    }
}

/// Returns a view that listens to the install signal. Fails with out of memory, or with `NoView`.
fn view_of<S: Wait, R: Wait + Drop>(
    rt: &S,
    published: &Publisher<Install>,
    install_signal: &Option<InstallSignal<R>>,
) -> Result<View, OpenFault>
    ensures ok { IfOk result (λ v. v ≡ published.now) }
    ensures err { IfErr result IsViewless }
{
    let Ok(mut shown) = published.view() else {
        return Err(OpenFault::NoMemory);
    };
    if let Some(install_signal) = install_signal {
        match install_signal.listener(rt) {
            Ok(reader) => shown.listen(reader),
            Err(_) => return Err(OpenFault::NoView),
        }
    }
    Ok(View { shown })
}

/// Creates the views.
fn make_views<S: Wait, R: Wait + Drop>(
    rt: &S,
    published: &Publisher<Install>,
    install_signal: &Option<InstallSignal<R>>,
    count: usize,
    views: &mut Vec<View>,
) -> Result<(), OpenFault>
    requires { (views.old.items ≡ []) × (count ≤ vec_capacity views.old) }
    ensures made { OnOk result ((length views.new.items ≡ count) × All (λ v. v ≡ published.now) views.new.items) }
    ensures none { IfErr result (λ fault. (0 < count) × IsViewless fault) }
{
    for _number in 0..count {
        match view_of(rt, published, install_signal) {
            Ok(view) => views.push_reserved(view),
            Err(fault) => return Err(fault),
        }
    }
    Ok(())
}

/// Converts the fault of a configuration into that of an opening. Out of memory becomes `NoMemory`.
fn fault_of(fault: ConfigFault) -> OpenFault
    ensures memory { fault.kind ≡ FaultKind.NoMemory → result ≡ OpenFault.NoMemory }
    ensures config { (fault.kind ≡ FaultKind.NoMemory → ⊥) → result ≡ OpenFault.Config fault }
{
    match fault.kind {
        FaultKind::NoMemory => OpenFault::NoMemory,
        _ => OpenFault::Config(fault),
    }
}

/// Returns the first fault in the numbers of seats, inlets and views, or `None` if they are
/// allowed.
fn size_fault(seats: usize, inlets: &[Inlet], views: usize) -> Option<OpenFault>
    ensures fits { IfNone result (AreFit seats inlets.now × (views ≤ 16)) }
    ensures fault { IfSome result (λ fault. (text : List ℕ) → IsViewFault seats inlets.now views text fault) }
{
    if seats == 0 || seats > MAX_SEATS {
        return Some(OpenFault::SeatCount);
    }
    if !have_distinct_devices(inlets) {
        return Some(OpenFault::DeviceTwice);
    }
    if inlets.len() > MAX_INLETS {
        return Some(OpenFault::InletCount);
    }
    if views > MAX_VIEWS {
        return Some(OpenFault::ViewCount);
    }
    None
}

/// Creates everything that a desk of these sizes is built from, or returns the first fault.
fn make_opening<'a, T: Drop, R: Wait>(
    rt: &'a R,
    alloc: Global,
    text: &[u8],
    inlets: &[Inlet],
    sizes: Sizes,
) -> Result<Opening<T, &'a R>, OpenFault>
    ensures good { IfOk result (λ o. AreFit sizes.seats inlets.now × (sizes.views ≤ 16) × IsOpened text.now o.prepared) }
    ensures options { IfOk result (λ o. o.parts.beside ≡ record { opening = text.now; room = sizes.room; seats = sizes.seats; origin = o.parts.router_log.value.published.board }) }
    ensures inside { IfOk result (λ o. o.parts.router_log.value.options ≡ o.parts.beside) }
    ensures published { IfOk result (λ o. o.parts.router_log.value.published ≡ record { board = o.parts.router_log.value.published.board; list = text.now ∷ [] }) }
    ensures empty { IfOk result (λ o. (o.parts.router_log.value.entries.items ≡ []) × (o.parts.router_log.value.entries.keeps ≡ is_some sizes.room)) }
    ensures queue { IfOk result (λ o. (ruled_capacity o.parts.queue ≡ 1) × IsPassOf o.parts.queue o.parts.maker × (view o.parts.maker ≡ first)) }
    ensures given { IfOk result (λ o. (o.parts.given.items ≡ []) × (sizes.seats ≤ vec_capacity o.parts.given)) }
    ensures views { IfOk result (λ o. (length o.parts.views.items ≡ sizes.views) × All (λ v. v ≡ o.parts.router_log.value.published) o.parts.views.items) }
    ensures consumers { IfOk result (λ o. (o.parts.router_log.value.consumers.items ≡ []) × (length inlets.now ≤ vec_capacity o.parts.router_log.value.consumers)) }
    ensures fault { IfErr result (λ fault. IsViewFault sizes.seats inlets.now sizes.views text.now fault) }
{
    if let Some(fault) = size_fault(sizes.seats, inlets, sizes.views) {
        return Err(fault);
    }
    let prepared = match prepare(alloc, text) {
        Ok(prepared) => prepared,
        Err(fault) => return Err(fault_of(fault)),
    };
    let Ok(install_signal) = signal_for(rt, alloc, sizes.views) else {
        return Err(OpenFault::NoMemory);
    };
    let Ok(mut parts) = make_parts(rt, alloc, text, &prepared, sizes, inlets.len()) else {
        return Err(OpenFault::NoMemory);
    };
    if let Err(fault) = make_views(
        rt,
        &parts.router_log.published,
        &install_signal,
        sizes.views,
        &mut parts.views,
    ) {
        return Err(fault);
    }
    Ok(Opening {
        prepared,
        install_signal,
        parts,
    })
}

/// Returns a refused opening with what was handed in.
fn refused<T>(table: T, inlets: Vec<Inlet>, fault: OpenFault) -> OpenRefused<T>
    ensures { result ≡ record { table = table; inlets = inlets; fault = fault } }
{
    OpenRefused {
        table,
        inlets,
        fault,
    }
}

impl<'a, T: Drop, R: Wait> Desk<T, &'a R> {
    /// Opens a desk for a history of at most `room` entries. It has 1 to 256 seats and at most 16
    /// inlets, each of another device.
    ///
    /// If it fails, the table and the inlets are returned. The fault is the first one in this
    /// order:
    /// 1. The number of seats is not allowed.
    /// 2. Two inlets are of one device.
    /// 3. The number of inlets is not allowed.
    /// 4. The configuration has a fault, or the opening is out of memory.
    pub fn open(
        rt: &'a R,
        alloc: Global,
        table: T,
        text: &[u8],
        room: usize,
        seats: usize,
        inlets: Vec<Inlet>,
    ) -> Result<(Desk<T, &'a R>, Vec<Seat<T>>), OpenRefused<T>>
        ensures desk { IfOk result (λ r. (r.0.options.opening ≡ text.now) × (r.0.options.room ≡ Some room) × (r.0.options.seats ≡ seats)) }
        ensures seats { IfOk result (λ r. (r.1.items ≡ seats_below r.0 inlets.items seats) × All (λ s. s.desk ≡ r.0) r.1.items) }
        ensures fed { IfOk result (λ r. All (λ s. s.feeds ≡ inlets.items) r.1.items) }
        ensures good { IfOk result (λ r. AreFit seats inlets.items × IsLegal text.now []) }
        ensures handed { IfErr result (λ r. (r.table ≡ table) × (r.inlets ≡ inlets)) }
        ensures fault { IfErr result (λ r. IsOpenFault seats inlets.items text.now r.fault) }
    {
        match Desk::open_with_views(rt, alloc, table, text, room, seats, inlets, 0) {
            Ok((desk, given, _none)) => Ok((desk, given)),
            Err(refused) => Err(refused),
        }
    }

    /// Opens a desk as `open` does, with up to 16 views, each of which shows the opening
    /// configuration.
    ///
    /// The number of views is tested after that of the inlets. The last fault is that a view was
    /// given no handle that reads the install signal.
    pub fn open_with_views(
        rt: &'a R,
        alloc: Global,
        table: T,
        text: &[u8],
        room: usize,
        seats: usize,
        inlets: Vec<Inlet>,
        views: usize,
    ) -> Result<(Desk<T, &'a R>, Vec<Seat<T>>, Vec<View>), OpenRefused<T>>
        ensures desk { IfOk result (λ r. (r.0.options.opening ≡ text.now) × (r.0.options.room ≡ Some room) × (r.0.options.seats ≡ seats)) }
        ensures seats { IfOk result (λ r. (r.1.items ≡ seats_below r.0 inlets.items seats) × All (λ s. s.desk ≡ r.0) r.1.items) }
        ensures fed { IfOk result (λ r. All (λ s. s.feeds ≡ inlets.items) r.1.items) }
        ensures views { IfOk result (λ r. (length r.2.items ≡ views) × All (λ v. v ≡ record { board = r.0.options.origin; list = text.now ∷ [] }) r.2.items) }
        ensures good { IfOk result (λ r. AreFit seats inlets.items × (views ≤ 16) × IsLegal text.now []) }
        ensures handed { IfErr result (λ r. (r.table ≡ table) × (r.inlets ≡ inlets)) }
        ensures fault { IfErr result (λ r. IsViewFault seats inlets.items views text.now r.fault) }
    {
        let sizes = Sizes {
            room: Some(room),
            seats,
            views,
        };
        Desk::open_of(rt, alloc, table, text, inlets, sizes)
    }

    /// Opens a live desk, which keeps no book: its history has no bound and is ghost state.
    ///
    /// No call and no poll allocates memory that stays, except that each swap stores what it
    /// publishes if there are views. All that is promised of a history holds for this one too.
    /// Since it is not stored, a seat and a book return no calls. Fails as `open_with_views` does.
    pub fn open_live(
        rt: &'a R,
        alloc: Global,
        table: T,
        text: &[u8],
        seats: usize,
        inlets: Vec<Inlet>,
        views: usize,
    ) -> Result<(Desk<T, &'a R>, Vec<Seat<T>>, Vec<View>), OpenRefused<T>>
        ensures desk { IfOk result (λ r. (r.0.options.opening ≡ text.now) × (r.0.options.room ≡ None) × (r.0.options.seats ≡ seats)) }
        ensures seats { IfOk result (λ r. (r.1.items ≡ seats_below r.0 inlets.items seats) × All (λ s. s.desk ≡ r.0) r.1.items) }
        ensures fed { IfOk result (λ r. All (λ s. s.feeds ≡ inlets.items) r.1.items) }
        ensures views { IfOk result (λ r. (length r.2.items ≡ views) × All (λ v. v ≡ record { board = r.0.options.origin; list = text.now ∷ [] }) r.2.items) }
        ensures good { IfOk result (λ r. AreFit seats inlets.items × (views ≤ 16) × IsLegal text.now []) }
        ensures handed { IfErr result (λ r. (r.table ≡ table) × (r.inlets ≡ inlets)) }
        ensures fault { IfErr result (λ r. IsViewFault seats inlets.items views text.now r.fault) }
    {
        let sizes = Sizes {
            room: None,
            seats,
            views,
        };
        Desk::open_of(rt, alloc, table, text, inlets, sizes)
    }

    /// Opens a desk of these sizes.
    fn open_of(
        rt: &'a R,
        alloc: Global,
        table: T,
        text: &[u8],
        inlets: Vec<Inlet>,
        sizes: Sizes,
    ) -> Result<(Desk<T, &'a R>, Vec<Seat<T>>, Vec<View>), OpenRefused<T>>
        ensures desk { IfOk result (λ r. (r.0.options.opening ≡ text.now) × (r.0.options.room ≡ sizes.room) × (r.0.options.seats ≡ sizes.seats)) }
        ensures seats { IfOk result (λ r. (r.1.items ≡ seats_below r.0 inlets.items sizes.seats) × All (λ s. s.desk ≡ r.0) r.1.items) }
        ensures fed { IfOk result (λ r. All (λ s. s.feeds ≡ inlets.items) r.1.items) }
        ensures views { IfOk result (λ r. (length r.2.items ≡ sizes.views) × All (λ v. v ≡ record { board = r.0.options.origin; list = text.now ∷ [] }) r.2.items) }
        ensures good { IfOk result (λ r. AreFit sizes.seats inlets.items × (sizes.views ≤ 16) × IsLegal text.now []) }
        ensures handed { IfErr result (λ r. (r.table ≡ table) × (r.inlets ≡ inlets)) }
        ensures fault { IfErr result (λ r. IsViewFault sizes.seats inlets.items sizes.views text.now r.fault) }
    {
        match make_opening(rt, alloc, text, inlets.as_slice(), sizes) {
            Ok(opening) => Ok(Desk::put_together(rt, alloc, table, inlets, opening)),
            Err(fault) => Err(refused(table, inlets, fault)),
        }
    }

    /// Builds a desk, with its seats and its views. Never allocates.
    fn put_together(
        rt: &'a R,
        alloc: Global,
        table: T,
        inlets: Vec<Inlet>,
        opening: Opening<T, &'a R>,
    ) -> (Desk<T, &'a R>, Vec<Seat<T>>, Vec<View>)
        requires fit { AreFit opening.parts.beside.seats inlets.items }
        requires opened { IsOpened opening.parts.beside.opening opening.prepared }
        requires options { opening.parts.router_log.value.options ≡ opening.parts.beside }
        requires published { opening.parts.router_log.value.published ≡ record { board = opening.parts.beside.origin; list = opening.parts.beside.opening ∷ [] } }
        requires empty { (opening.parts.router_log.value.entries.items ≡ []) × (opening.parts.router_log.value.entries.keeps ≡ is_some opening.parts.beside.room) }
        requires queue { (ruled_capacity opening.parts.queue ≡ 1) × IsPassOf opening.parts.queue opening.parts.maker × (view opening.parts.maker ≡ first) }
        requires given { (opening.parts.given.items ≡ []) × (opening.parts.beside.seats ≤ vec_capacity opening.parts.given) }
        requires consumers { (opening.parts.router_log.value.consumers.items ≡ []) × (length inlets.items ≤ vec_capacity opening.parts.router_log.value.consumers) }
        ensures desk { result.0.options ≡ opening.entry.parts.beside }
        ensures seats { (result.1.items ≡ seats_below result.0 inlets.items opening.entry.parts.beside.seats) × All (λ s. s.desk ≡ result.0) result.1.items }
        ensures fed { All (λ s. s.feeds ≡ inlets.items) result.1.items }
        ensures views { result.2.items ≡ opening.entry.parts.views.items }
    {
        let Opening {
            prepared,
            install_signal,
            parts,
        } = opening;
        let Parts {
            mut router_log,
            beside,
            queue,
            mut maker,
            mut given,
            views,
        } = parts;
        let told = router_log.published.notice();
        let router = Router::open(table, prepared);
        open_all(inlets, &mut router_log.consumers);
        let logged_router = LoggedRouter::new(router_log, router);
        give(rt, &queue, &mut maker, logged_router);
        let keeps = beside.room.is_some();
        let count = beside.seats;
        make_seats(alloc, &queue, maker, keeps, count, &mut given, &told);
        let desk = Desk {
            alloc,
            queue,
            waiting: AtomicU32::new(0),
            options: beside,
            install_signal,
        };
        (desk, given, views)
    }
}
