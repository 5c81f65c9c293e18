//! Views of records.

ghost use Rattle.std.specs.Prelude.{IsTrue};
ghost use Rattle.std.specs.Option.{ForSome};
ghost use Rattle.record_codec.specs.Names.{is_name};

/// A record whose name stays where it lies, in an event or in bytes.
#[derive(Clone, Copy)]
pub struct RecordView<'a> {
    /// The descriptor of the watch that gets the event, as in `Event`.
    pub wd: i32,
    /// What happened, as in `Event`.
    pub mask: u32,
    /// The number that ties two events together, as in `Event`.
    pub cookie: u32,
    /// The bytes of the name, if there is one.
    pub name: Option<&'a [u8]>,
    ghost named: { ForSome name (λ n. IsTrue (is_name n.now)) },
}
