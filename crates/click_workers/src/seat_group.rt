//! Groups of seats that are taken from the seats of a desk and put back.

use click_desk::Seat;

/// The seats of additional work: none, one, or those of two groups.
pub trait SeatGroup<T>: Send + Drop {
    ghost use Rattle.std.specs.Prelude.{◌≡◌, ◌≤◌, ◌+◌, ◌++◌, ℕ, List, length, vec_capacity};
    ghost use Rattle.click_desk.specs.SeatStates.{SeatState};

    /// The number of seats of the group.
    ghost many: { ℕ };

    /// The seats of the group, in order.
    ghost sittings: { Self → List SeatState };

    /// Returns the number of seats of the group, plus `others`.
    fn with_others(others: usize) -> usize
        requires { others + many ≤ 256 }
        ensures { result ≡ others + many };

    /// Removes the last seats of `from`, as many as the group has, and returns them as a group.
    fn take(from: &mut Vec<Seat<T>>) -> Self
        requires { many ≤ length from.old.items }
        ensures taken { from.old.items ≡ from.new.items ++ sittings result }
        ensures count { length (sittings result) ≡ many }
        ensures room { vec_capacity from.new ≡ vec_capacity from.old };

    /// Appends the seats of the group to `to`, which has room for them.
    fn give(self, to: &mut Vec<Seat<T>>)
        requires { length to.old.items + length (sittings self) ≤ vec_capacity to.old }
        ensures given { to.new.items ≡ to.old.items ++ sittings self }
        ensures room { vec_capacity to.old ≤ vec_capacity to.new };
}

impl<T> SeatGroup<T> for () {
    ghost use Rattle.std.specs.Prelude.{[]};

    ghost many = { 0 };

    ghost sittings = { λ _. [] };

    fn with_others(others: usize) -> usize {
        others
    }

    fn take(_from: &mut Vec<Seat<T>>) {}

    fn give(self, _to: &mut Vec<Seat<T>>) {}
}

impl<T: Send + Drop> SeatGroup<T> for Seat<T> {
    ghost use Rattle.std.specs.Prelude.{[], ◌∷◌};

    ghost many = { 1 };

    ghost sittings = { λ s. s ∷ [] };

    fn with_others(others: usize) -> usize {
        others + 1
    }

    fn take(from: &mut Vec<Seat<T>>) -> Seat<T> {
        match from.pop() {
            Some(seat) => seat,
            None => unreachable!(),
        }
    }

    fn give(self, to: &mut Vec<Seat<T>>) {
        to.push_reserved(self);
    }
}

impl<T, A: SeatGroup<T>, B: SeatGroup<T>> SeatGroup<T> for (A, B) {
    ghost use Rattle.std.specs.Prelude.{◌+◌, ◌++◌};

    ghost many = { A.many + B.many };

    ghost sittings = { λ s. A.sittings s.0 ++ B.sittings s.1 };

    fn with_others(others: usize) -> usize {
        B::with_others(A::with_others(others))
    }

    fn take(from: &mut Vec<Seat<T>>) -> (A, B) {
        let second = B::take(from);
        (A::take(from), second)
    }

    fn give(self, to: &mut Vec<Seat<T>>) {
        let (first, second) = self;
        first.give(to);
        second.give(to);
    }
}
