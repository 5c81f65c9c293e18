//! Keys of nodes.

ghost use Rattle.std.specs.Prelude.{◌≡◌};

use std::marker::Model;

/// A node of a table, as [`crate::Table::resolve`] gives it. Moving the node leaves its key; dropping it ends the key.
#[derive(Clone, Copy)]
pub struct Key {
    slot: usize,
}

impl Model for Key {
    ghost use Rattle.std.specs.Prelude.{ℕ};

    ghost Value = { ℕ };

    ghost view = { λ key. key.slot };

    ghost inverse = { λ slot. record { slot = slot } };
}

impl Key {
    pub(crate) fn of(slot: usize) -> Key
        ensures { result ≡ slot }
    {
        Key { slot }
    }

    pub(crate) fn slot(self) -> usize
        ensures { result ≡ self }
    {
        self.slot
    }
}
