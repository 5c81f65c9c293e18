//! How much a tree takes.

ghost use Rattle.std.specs.Prelude.{◌≡◌, ◌≤◌};
ghost use Rattle.tree_paths.specs.Greatest.{most};

/// The last value of each kind that is still given; the next one is refused.
///
/// Each field lies between 1 and its value in [`Limits::full`], which the type keeps: code that sets one has to prove
/// it.
#[derive(Clone, Copy)]
pub struct Limits {
    /// File numbers, the root counted: up to 2^20. Beyond it `NumbersSpent`.
    pub numbers: u32,
    /// Bytes of a file: up to 2^24. Beyond it `EFBIG`.
    pub file_bytes: u32,
    /// Links of a file: up to 65,000. Beyond it `EMLINK`.
    pub links: u32,
    /// Instances open at a time: up to 128. Beyond it `EMFILE`.
    pub instances: u32,
    /// Instances ever: up to 2^31 - 1. Beyond it `EMFILE`.
    pub ids: u32,
    /// Watches of an instance: up to 8,192. Beyond it `ENOSPC`.
    pub watches: u32,
    /// Watch descriptors of an instance, ever: up to 2^31 - 1. Beyond it `ENOSPC`.
    pub wds: u32,
    /// The greatest limit of a queue: up to 65,535. Beyond it `EINVAL`. A queue holds as many records as its own limit
    /// says, and one mark more where events were lost.
    pub queue: u32,
    /// Cookies: up to 2^32 - 1. Beyond it `CookiesSpent`.
    pub cookies: u32,
    /// Entries of the journal: up to 1,000,000. Beyond it `JournalFull`.
    pub journal: u32,
    /// Seats: up to 65,536. Beyond it `SeatsSpent`.
    pub seats: u32,
    pub ghost numbers_in: { (1 ≤ numbers) × (numbers ≤ most.numbers) },
    pub ghost file_bytes_in: { (1 ≤ file_bytes) × (file_bytes ≤ most.file_bytes) },
    pub ghost links_in: { (1 ≤ links) × (links ≤ most.links) },
    pub ghost instances_in: { (1 ≤ instances) × (instances ≤ most.instances) },
    pub ghost ids_in: { (1 ≤ ids) × (ids ≤ most.ids) },
    pub ghost watches_in: { (1 ≤ watches) × (watches ≤ most.watches) },
    pub ghost wds_in: { (1 ≤ wds) × (wds ≤ most.wds) },
    pub ghost queue_in: { (1 ≤ queue) × (queue ≤ most.queue) },
    pub ghost cookies_in: { (1 ≤ cookies) × (cookies ≤ most.cookies) },
    pub ghost journal_in: { (1 ≤ journal) × (journal ≤ most.journal) },
    pub ghost seats_in: { (1 ≤ seats) × (seats ≤ most.seats) },
}

impl Limits {
    ghost use Rattle.tree_paths.specs.Bounds.{full};

    /// The greatest limits.
    pub fn full() -> Limits
        ensures { result ≡ full }
    {
        Limits {
            numbers: 1_048_576,
            file_bytes: 16_777_216,
            links: 65_000,
            instances: 128,
            ids: 2_147_483_647,
            watches: 8192,
            wds: 2_147_483_647,
            queue: 65_535,
            cookies: 4_294_967_295,
            journal: 1_000_000,
            seats: 65_536,
        }
    }
}
