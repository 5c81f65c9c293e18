//! What lets turns through.

ghost use Rattle.std.specs.Prelude.{◌≡◌, ℕ, Bool};

/// Decides which turns of a listener, or of another worker, do something.
pub trait Gate: Sync {
    /// What it may answer to a worker at a turn: a gate can open while others ask it.
    ghost may_pass: { Self → ℕ → ℕ → Bool → Type 0 };

    /// How many turns a worker has at most.
    ghost most_turns: { Self → ℕ };

    /// Whether a turn is let through. The turns of each worker count from 0. `who` is a listener's number, or another
    /// worker's.
    fn pass(&self, who: u32, turn: u64) -> bool
        ensures { may_pass self.now who turn result };

    /// How many turns a worker has at most.
    fn turns(&self) -> u64
        ensures { result ≡ most_turns self.now };
}
