//! The single-slot queue that holds the logged router while no call is in progress, and its rule.

use crate::logged_router::LoggedRouter;
use crate::pass_knowledge::PassKnowledge;
use crossbeam_queue::protocol::{Join, Lesson, Outcome, Protocol, Split};
use crossbeam_queue::{Pass, RuledArrayQueue};

/// The rule of the queue: an invariant of its content and of what all passes know.
pub struct SingleSlot;

impl<T> Protocol<LoggedRouter<T>, PassKnowledge> for SingleSlot {
    ghost use Rattle.click_desk.specs.Rule.{SingleSlot as TheRule};
    ghost use Rattle.click_desk.specs.Views.{first as first_view};

    ghost holds = { TheRule };

    ghost first = { first_view };
}

/// The step that takes the logged router.
pub struct Take;

impl<T> Outcome<LoggedRouter<T>, PassKnowledge> for Take {
    ghost use Rattle.click_desk.specs.Views.{Takes};

    ghost then = { Takes };
}

/// The step that gives the logged router back. It finds the queue empty.
pub struct Give;

impl<T> Outcome<LoggedRouter<T>, PassKnowledge> for Give {
    ghost use Rattle.click_desk.specs.Views.{Gives};

    ghost then = { Gives };
}

impl<T> Lesson<LoggedRouter<T>, PassKnowledge> for Give {
    ghost use Rattle.std.specs.Prelude.{◌≡◌, [], true};

    ghost fact = { λ v items. v.holds ≡ true → items ≡ [] };
}

/// The split of a pass that makes seats: into itself and the pass of the next seat.
pub struct SplitSeat;

impl Split<PassKnowledge> for SplitSeat {
    ghost use Rattle.click_desk.specs.Views.{one_more, next_seat};

    ghost left = { one_more };

    ghost right = { next_seat };
}

/// The split of a pass into itself and a pass without a seat.
pub struct Closer;

impl Split<PassKnowledge> for Closer {
    ghost use Rattle.click_desk.specs.Views.{agent};

    ghost left = { λ v. v };

    ghost right = { λ v. agent v.options };
}

/// The meeting of a seat's pass with the pass that holds the logged router. They are joined,
/// compare what the seat knows with the history, and are split again.
pub struct Audit;

impl Join<PassKnowledge> for Audit {
    ghost use Rattle.click_desk.specs.Views.{met, nobody};

    ghost both = { met };

    ghost spent = { nobody };
}

impl<T> Lesson<LoggedRouter<T>, PassKnowledge> for Audit {
    ghost use Rattle.click_desk.specs.Views.{Audits};

    ghost fact = { Audits };
}

impl Split<PassKnowledge> for Audit {
    ghost use Rattle.click_desk.specs.Views.{parted, holding};

    ghost left = { parted };

    ghost right = { λ v. holding v.options v.seen };
}

pub type Queue<T> = RuledArrayQueue<LoggedRouter<T>, PassKnowledge, SingleSlot>;

pub type DeskPass<T> = Pass<LoggedRouter<T>, PassKnowledge>;
