//! Which files may be watched.

ghost use Rattle.std.specs.Prelude.{◌≡◌, ℕ, Bool};

/// Says which files may be watched. A notice is for the watches of its file: one of an unwatched file raises nothing.
pub trait Audience {
    /// Whether a file may be watched.
    ghost may_watch: { Self → ℕ → Bool };

    /// Whether the file with this number may be watched.
    fn may_be_watched(&self, number: u32) -> bool
        ensures { result ≡ may_watch self.now number };
}
