//! The watches of a file that earlier notices ended.

ghost use Rattle.std.specs.Prelude.{◌≡◌, ◌==◌, ◌&&◌, ◌||◌};
ghost use Rattle.watch_table.specs.declared.watch.Watch.{Watch};
ghost use Rattle.event_rules.specs.Raised.{ends_watch, told_number};
ghost use Rattle.event_rules.specs.Staging.{ended_before, is_ended};

use crate::notice::Notice;
use crate::staged::has_any;
use record_codec::bits;
use watch_table::Watch;

/// Which watches of a file notices of it ended: all of them where it is gone, else the one-shot watches that ask for an
/// event that it had.
#[derive(Clone, Copy)]
pub struct EndedWatches {
    is_gone: bool,
    // The bits of all its events, joined.
    bits: u32,
}

impl EndedWatches {
    /// What those of the notices that are of a file end of its watches.
    pub fn of(notices: &[Notice], number: u32) -> EndedWatches
        ensures { (watch : Watch) → is_ended result watch ≡ ended_before notices.now number watch }
    {
        let mut ended = EndedWatches {
            is_gone: false,
            bits: 0,
        };
        for notice in notices {
            ended = ended.and(notice, number);
        }
        ended
    }

    /// Whether a watch of the file has ended.
    #[inline(always)]
    pub fn has_ended(&self, watch: Watch) -> bool
        ensures { result ≡ is_ended self.now watch }
    {
        self.is_gone || has_any(watch.mask, self.bits) && has_any(watch.mask, bits::IN_ONESHOT)
    }

    /// And those that one more notice ends, if it is of the file.
    fn and(&self, notice: &Notice, number: u32) -> EndedWatches
        ensures { (watch : Watch) → is_ended result watch
            ≡ (is_ended self.now watch || (told_number notice.now == number) && ends_watch notice.now watch) }
    {
        if notice.number() != number {
            return *self;
        }
        match notice {
            Notice::Told { bits, .. } => EndedWatches {
                is_gone: self.is_gone,
                bits: self.bits | *bits & bits::IN_ALL_EVENTS,
            },
            Notice::Gone { .. } => EndedWatches {
                is_gone: true,
                bits: self.bits,
            },
        }
    }
}
