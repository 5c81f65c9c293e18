//! Lists that contracts see as such.

ghost use Rattle.std.specs.Prelude.{◌≡◌, ◌↔◌, IfOk, IsTrue};
ghost use Rattle.std.proofs.Common.{rules};
ghost use Rattle.std.specs.Cmp.Rules.{comparing};

use crate::event::Event;
use std::alloc::AllocError;
use std::marker::Model;

/// Bytes, of which contracts see the list.
///
/// It holds a `Vec<u8>` where a struct, an enum or a vector does that contracts compare.
#[derive(Debug)]
pub struct Bytes {
    bytes: Vec<u8>,
}

impl Drop for Bytes {
    fn drop(self) {
        let Bytes { bytes: _ } = self;
    }
}

impl Model for Bytes {
    ghost use Rattle.std.specs.Prelude.{List, ℕ};

    ghost Value = { List ℕ };

    ghost view = { λ list. list.bytes.items };
}

impl Bytes {
    /// The vector's bytes. It takes no memory.
    pub fn from_vec(bytes: Vec<u8>) -> Bytes
        ensures { result ≡ bytes.items }
    {
        Self { bytes }
    }

    /// The vector of the bytes. It takes no memory.
    pub fn into_vec(self) -> Vec<u8>
        ensures { result.items ≡ self }
    {
        let Bytes { bytes } = self;
        bytes
    }

    /// The bytes, to read.
    pub fn as_slice(&self) -> &[u8]
        ensures { result.now ≡ self.now }
    {
        &self.bytes
    }

    /// A copy of the bytes.
    ///
    /// # Errors
    /// `AllocError`, where there is no memory for them.
    pub fn copy(&self) -> Result<Bytes, AllocError>
        ensures { IfOk result (λ copy. copy ≡ self.now) }
    {
        Ok(Bytes {
            bytes: self.bytes.clone()?,
        })
    }
}

impl PartialEq for Bytes {
    ghost use Rattle.std.specs.Prelude.{nat_eq};
    ghost use Rattle.std.specs.Cmp.Lexicographic.{pointwise};

    ghost eq = { pointwise nat_eq };

    ghost laws = { Prim.search (comparing, rules) };

    fn eq(&self, other: &Bytes) -> bool
        ensures value { result ≡ pointwise nat_eq self.now other.now }
        ensures same { IsTrue result ↔ (self.now ≡ other.now) }
    {
        self.bytes.as_slice() == other.bytes.as_slice()
    }
}

impl Eq for Bytes {
    ghost laws = { Prim.search (comparing, rules) };
}

/// Events, of which contracts see the list.
///
/// It holds a `Vec<Event>` where a struct, an enum or a vector does that contracts compare.
#[derive(Debug)]
pub struct Events {
    events: Vec<Event>,
}

impl Drop for Events {
    fn drop(self) {
        let Events { events: _ } = self;
    }
}

impl Model for Events {
    ghost use Rattle.std.specs.Prelude.{List};
    ghost use Rattle.record_codec.specs.declared.event.Event.{Event};

    ghost Value = { List Event };

    ghost view = { λ list. list.events.items };
}

impl Events {
    /// The vector's events. It takes no memory.
    pub fn from_vec(events: Vec<Event>) -> Events
        ensures { result ≡ events.items }
    {
        Self { events }
    }

    /// The vector of the events. It takes no memory.
    pub fn into_vec(self) -> Vec<Event>
        ensures { result.items ≡ self }
    {
        let Events { events } = self;
        events
    }

    /// The events, to read.
    pub fn as_slice(&self) -> &[Event]
        ensures { result.now ≡ self.now }
    {
        &self.events
    }

    /// A copy of the events.
    ///
    /// # Errors
    /// `AllocError`, where there is no memory for them.
    pub fn copy(&self) -> Result<Events, AllocError>
        ensures { IfOk result (λ copy. copy ≡ self.now) }
    {
        let alloc = *self.events.allocator();
        let mut events = Vec::with_capacity(alloc, self.events.len())?;
        for event in self.events.iter() {
            events.push(event.copy()?)?;
        }
        Ok(Events { events })
    }
}

impl PartialEq for Events {
    ghost use Rattle.std.specs.Cmp.{partial_equiv_from_equiv};
    ghost use Rattle.record_codec.specs.Equality.{events_eq, events_eq_equiv};

    ghost eq = { events_eq };

    ghost laws = { partial_equiv_from_equiv events_eq_equiv };

    fn eq(&self, other: &Events) -> bool
        ensures value { result ≡ events_eq self.now other.now }
        ensures same { IsTrue result ↔ (self.now ≡ other.now) }
    {
        self.events.as_slice() == other.events.as_slice()
    }
}

impl Eq for Events {
    ghost use Rattle.record_codec.specs.Equality.{events_eq_equiv};

    ghost laws = { events_eq_equiv };
}
