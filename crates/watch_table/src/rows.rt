//! Watches as rows.

ghost use Rattle.std.specs.Prelude.{◌≡◌};

use std::marker::Model;

/// Watches, each with the number of its file, its descriptor and its bits. Contracts see the list.
pub struct WatchRows {
    rows: Vec<(u32, i32, u32)>,
}

impl Drop for WatchRows {
    fn drop(self) {
        let WatchRows { rows: _ } = self;
    }
}

impl Model for WatchRows {
    ghost use Rattle.std.specs.Prelude.{List, ℕ, ℤ};

    ghost Value = { List (ℕ × ℤ × ℕ) };

    ghost view = { λ list. list.rows.items };
}

impl WatchRows {
    /// The vector's watches. It takes no memory.
    pub fn from_vec(rows: Vec<(u32, i32, u32)>) -> WatchRows
        ensures { result ≡ rows.items }
    {
        WatchRows { rows }
    }

    /// The watches, to read.
    pub fn as_slice(&self) -> &[(u32, i32, u32)]
        ensures { result.now ≡ self.now }
    {
        &self.rows
    }
}
