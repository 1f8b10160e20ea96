//! A port whose calls are reported to an observer.

ghost use Rattle.std.specs.Prelude.{◌≡◌};

use crate::observer::{CallSummary, Observer, SessionRecord};
use click_control::{AskFault, Ended, Port, ServeFault};
use click_router::{Call, StoredReply};
use std::alloc::Global;
use std::marker::Model;

/// The port of a session or of a page, whose calls are reported to an observer. Its value in
/// contracts is the port.
pub struct ObservedPort<'a, P, O> {
    port: P,
    observer: &'a O,
    /// The record of the session or page, if its calls are observed.
    record: Option<SessionRecord>,
}

impl<'a, P, O> Model for ObservedPort<'a, P, O> {
    ghost Value = { P };

    ghost view = { λ p. p.port };
}

impl<'a, P, O: Observer> ObservedPort<'a, P, O> {
    /// Reports that a session begins in this slot, and returns its port.
    pub(crate) fn begin(port: P, observer: &'a O, slot: usize) -> ObservedPort<'a, P, O>
        ensures { result ≡ port }
    {
        let record = observer.session_begins(slot);
        ObservedPort {
            port,
            observer,
            record,
        }
    }

    /// Reports that the session has ended in this way, and returns what it was made from.
    pub(crate) fn end(self, ended: &Result<Ended, ServeFault>) -> P
        ensures { result ≡ self.entry }
    {
        let ObservedPort {
            port,
            observer,
            record,
        } = self;
        observer.session_ends(ended, record.as_ref());
        port
    }

    /// Returns the port of a page. Its calls are reported, but no begin and no end. Its record has
    /// the number 0, which no session has.
    pub fn of_page(port: P, observer: &'a O) -> ObservedPort<'a, P, O>
        ensures { result ≡ port }
    {
        ObservedPort {
            port,
            observer,
            record: Some(SessionRecord::new(0)),
        }
    }

    /// Returns the port that it was made from, and reports nothing.
    pub fn into_port(self) -> P
        ensures { result ≡ self.entry }
    {
        let ObservedPort {
            port,
            observer: _,
            record: _,
        } = self;
        port
    }
}

impl<'a, P: Port, O: Observer> Port for ObservedPort<'a, P, O> {
    ghost asks = { P.asks };

    // proof: the observer is called here and not in a function of its own. `Port` has no bound
    // `Sync`, and the borrow checker does not cover a call from its impl that passes one on.
    fn ask_stored(&mut self, alloc: Global, call: Call) -> Result<StoredReply, AskFault> {
        let Some(mut record) = self.record else {
            return self.port.ask_stored(alloc, call);
        };
        let summary = CallSummary::of(&call);
        let answered = self.port.ask_stored(alloc, call);
        record.count(summary.kind, answered.is_err());
        self.observer.call_answered(&record, &summary, &answered);
        self.record = Some(record);
        answered
    }
}
