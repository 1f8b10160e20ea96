//! Turns, by which a caller of `serve_turns` controls a session command by command.

ghost use Rattle.std.specs.Prelude.{◌≡◌, true};

/// What a session asks before each of its commands, and reports to after it.
pub trait Turns {
    ghost use Rattle.std.specs.Prelude.{ℕ, Bool};

    /// The effect of asking for the nth turn: the turns before it, n, whether it is given, and the
    /// turns after it.
    ghost turn: { Self → ℕ → Bool → Self → Type 0 };

    /// The effect of the report that the nth command is answered: the turns before it, n, and the
    /// turns after it.
    ghost done: { Self → ℕ → Self → Type 0 };

    /// Returns whether the session may take up its nth command, counted from 1; if not, the session
    /// ends.
    ///
    /// Called before every whole command, including `QUIT` and those that make no call.
    fn before(&mut self, nth: u64) -> bool
        ensures { turn self.old nth result self.new };

    /// Receives the report that the reply to the nth command is written.
    fn after(&mut self, nth: u64)
        ensures { done self.old nth self.new };
}

/// Turns that are all given.
#[derive(Drop)]
pub struct Open;

impl Turns for Open {
    ghost turn = { λ _ _ given _. given ≡ true };

    ghost done = { λ _ _ _. Unit {0} };

    fn before(&mut self, _nth: u64) -> bool {
        true
    }

    fn after(&mut self, _nth: u64) {}
}
