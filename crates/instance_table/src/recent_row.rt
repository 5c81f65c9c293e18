//! The files whose watchers were looked up last.
ghost use Rattle.std.specs.Option.{option_copied};
ghost use Rattle.instance_table.specs.Recent.{AreFound};
ghost use Rattle.instance_table.specs.Watchers.{IsRowOf, row_or_none};

use crate::instances::Instances;
use file_watchers::Watchers;

/// A file, and the instances that watch it.
#[derive(Clone, Copy)]
pub(crate) struct FoundRow<'a> {
    number: u32,
    row: Option<&'a Watchers>,
}

/// What was found of the two files that were looked up last. The notices of a call are mostly of an object and of its
/// directory in turn, so the watchers of each are looked up once.
#[derive(Clone, Copy)]
pub(crate) struct RecentRows<'a> {
    last: FoundRow<'a>,
    before: FoundRow<'a>,
}

impl<'a> RecentRows<'a> {
    /// What is found of one file.
    #[inline(always)]
    pub(crate) fn of(instances: &'a Instances, number: u32) -> RecentRows<'a>
        ensures { AreFound instances.now result }
    {
        let found = FoundRow {
            number,
            row: instances.row(number),
        };
        RecentRows {
            last: found,
            before: found,
        }
    }

    /// The instances that watch a file, with their watches.
    #[inline(always)]
    pub(crate) fn row_of(&mut self, instances: &'a Instances, number: u32) -> Option<&'a Watchers>
        requires { AreFound instances.now self.old }
        ensures row { IsRowOf instances.now number (row_or_none (option_copied result)) }
        ensures found { AreFound instances.now self.new }
    {
        if number == self.last.number {
            return self.last.row;
        }
        if number == self.before.number {
            return self.before.row;
        }
        let row = instances.row(number);
        self.before = self.last;
        self.last = FoundRow { number, row };
        row
    }
}
