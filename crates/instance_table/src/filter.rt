//! Which files may be watched.
ghost use Rattle.std.specs.Prelude.{◌≡◌, ℕ, true};
ghost use Rattle.instance_table.specs.Filters.{passes};

use event_rules::Audience;

/// How many words of 64 bits the filter has. Files with the same remainder by the number of bits share one.
pub(crate) const WORDS: usize = 16;

/// A filter of the files that may be watched, by their numbers: a Bloom filter with one hash. A file is added when it
/// comes to be watched, and stays. So a file that does not pass is not watched, and no search for its watchers is made.
#[derive(Clone, Copy)]
pub struct WatchFilter {
    words: [u64; WORDS],
}

impl Audience for WatchFilter {
    ghost use Rattle.instance_table.specs.Filters.{passes};

    ghost may_watch = { λ filter number. passes filter number };

    /// Whether a file passes.
    #[tactic(auto, unfolding(crate::specs::Filters::passes))]
    #[inline(always)]
    fn may_be_watched(&self, number: u32) -> bool {
        (self.words[number as usize / 64 % WORDS] >> (number % 64)) & 1 == 1
    }
}

impl WatchFilter {
    /// No file passes.
    pub(crate) fn new() -> WatchFilter {
        WatchFilter { words: [0; WORDS] }
    }

    /// Adds a file.
    pub(crate) fn add(&mut self, number: u32)
        ensures added { passes self.new number ≡ true }
        ensures kept { (n : ℕ) → passes self.old n ≡ true → passes self.new n ≡ true }
    {
        self.words[number as usize / 64 % WORDS] |= 1 << (number % 64);
    }
}
