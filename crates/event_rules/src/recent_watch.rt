//! The watches that were searched for last.

ghost use Rattle.std.specs.Prelude.{◌≡◌};
ghost use Rattle.watch_table.specs.Watching.{watch_of};
ghost use Rattle.event_rules.specs.Recent.{AreFound};

use watch_table::{Watch, Watches};

/// A file, and its watch.
#[derive(Clone, Copy)]
pub(crate) struct Found {
    number: u32,
    watch: Option<Watch>,
}

/// What was found of the two files that were searched for last. The notices of a call are mostly of an object and of
/// its directory in turn, so the watch of each is searched for once.
#[derive(Clone, Copy)]
pub(crate) struct Recent {
    last: Found,
    before: Found,
}

impl Recent {
    /// What is found of one file.
    #[inline(always)]
    pub(crate) fn of(watches: &Watches, number: u32) -> Recent
        ensures { AreFound watches.now result }
    {
        let found = Found {
            number,
            watch: watches.of(number),
        };
        Recent {
            last: found,
            before: found,
        }
    }

    /// The watch of a file.
    #[inline(always)]
    pub(crate) fn watch_of(&mut self, watches: &Watches, number: u32) -> Option<Watch>
        requires { AreFound watches.now self.old }
        ensures watch { result ≡ watch_of watches.now number }
        ensures found { AreFound watches.now self.new }
    {
        if number == self.last.number {
            return self.last.watch;
        }
        if number == self.before.number {
            return self.before.watch;
        }
        let watch = watches.of(number);
        self.before = self.last;
        self.last = Found { number, watch };
        watch
    }
}
