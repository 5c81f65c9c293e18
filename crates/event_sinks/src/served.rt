//! Whether the listeners were handed what the journal hands over.

ghost use Rattle.std.specs.Prelude.{◌≡◌, ◌↔◌, ◌==◌, ℕ, true, [], ◌∷◌, Option, Some, IfOk, IsTrue, MatchOption, OnOk};
ghost use Rattle.std.specs.Prelude.{if◌then◌else◌, option_map};
ghost use Rattle.shared_tree.specs.declared.pipe.Batch.{Batch};
ghost use Rattle.shared_tree.specs.Calls.{BookContents};
ghost use Rattle.shared_tree.specs.Pipes.{IsIn, Lacks};
ghost use Rattle.std.specs.Prelude.{◌<◌, drop, get_or, length};
ghost use Rattle.shared_tree.specs.Handed.{batch};
ghost use Rattle.event_sinks.specs.Audited.{IsFaultAt, IsFirstFault, IsServedAt, batches_of, outcomes, since};
ghost use Rattle.event_sinks.specs.Tracks.{Comes, EndsLastAt, Follows, HandsOn, HandsOver, IsSpelled, IsTracked, blank};
ghost use Rattle.event_sinks.specs.Tracks.{given_by, handed_at, noted, track_at};

use crate::audit::SettleFault;
use crate::listener::{Cause, Ended};
use record_codec::{spellings_are_one, spells};
use shared_tree::{Batch, Book, batches_are_answered};
use std::alloc::{AllocError, Global};
use std::collections::BTreeMap;
use tree_core::{Call, Entry, Reply};

// How far the batches of a listener were compared with those that the journal hands over.
#[derive(Clone, Copy)]
struct Progress {
    // How many are the same.
    taken: usize,
    // The sequence number of the first one that is not.
    differs: Option<u64>,
}

// What is known of the instance of a number.
#[derive(Clone, Copy)]
struct Track {
    // Whether the book has a pipe of that number.
    is_piped: bool,
    // Where the first listener that ended for it stands, among all that ended.
    first: Option<usize>,
    // Whether another one ended for it.
    is_again: bool,
    // How far the batches of the first one were compared.
    progress: Progress,
}

/// The first fault, by instance number.
pub(crate) fn first_unserved<S>(
    alloc: Global,
    book: &Book,
    ended: &[Ended<S>],
) -> Result<Option<SettleFault>, AllocError>
    ensures { IfOk result (λ o. MatchOption o ((n : ℕ) → IsServedAt book.now (outcomes ended.now) n)
        (λ f. IsFirstFault book.now (outcomes ended.now) f)) }
{
    let mut tracks = tracks_of(alloc, book, ended)?;
    hand_all(&mut tracks, book, ended);
    Ok(first_fault(&tracks, ended, book.snapshot().place))
}

/// What is known of each pipe of a book, and of each instance for which a listener ended. Nothing is compared yet.
fn tracks_of<S>(
    alloc: Global,
    book: &Book,
    ended: &[Ended<S>],
) -> Result<BTreeMap<u32, Track>, AllocError>
    ensures { IfOk result (λ m.
        (n : ℕ) → IsTracked book.now (outcomes ended.now) (batches_of book.now n) n (track_at m n)) }
{
    let mut tracks = piped_tracks(alloc, book.pipes())?;
    for at in 0..ended.len() {
        note(&mut tracks, ended[at].instance(), at)?;
    }
    Ok(tracks)
}

/// A blank track of each of these numbers.
fn piped_tracks(alloc: Global, pipes: &[u32]) -> Result<BTreeMap<u32, Track>, AllocError>
    ensures { IfOk result (λ m.
        (n : ℕ) → MatchOption (track_at m n) (Lacks pipes.now n) (λ t. IsIn pipes.now n × (t ≡ blank true))) }
{
    let mut tracks = BTreeMap::new(alloc);
    for number in pipes {
        put(&mut tracks, *number, Track::blank(true))?;
    }
    Ok(tracks)
}

/// Puts the track of a number.
fn put(tracks: &mut BTreeMap<u32, Track>, number: u32, track: Track) -> Result<(), AllocError>
    ensures { OnOk result ((n : ℕ)
        → track_at tracks.new n ≡ if n == number then Some track else track_at tracks.old n) }
{
    tracks.insert(number, track)?;
    Ok(())
}

/// Notes that the listener at this index ended for an instance.
fn note(tracks: &mut BTreeMap<u32, Track>, number: u32, at: usize) -> Result<(), AllocError>
    ensures { OnOk result ((n : ℕ)
        → track_at tracks.new n
        ≡ if n == number then Some (noted at (track_at tracks.old number)) else track_at tracks.old n) }
{
    let track = match tracks.get(&number) {
        Some(track) => *track,
        None => Track::blank(false),
    };
    put(tracks, number, track.noting(at))
}

/// Compares what each entry hands over with the next batch of the listener of its instance.
fn hand_all<S>(tracks: &mut BTreeMap<u32, Track>, book: &Book, ended: &[Ended<S>])
    requires { (n : ℕ) → IsTracked book.now (outcomes ended.now) (batches_of book.now n) n (track_at tracks.old n) }
    ensures { (n : ℕ) → IsTracked book.now (outcomes ended.now) [] n (track_at tracks.new n) }
{
    book.law();
    batches_are_answered();
    let cut = book.snapshot().place;
    let _last = book.entries();
    let journal = book.journal();
    for at in 0..journal.len() {
        hand_entry(tracks, ended, cut, &journal[at], cut + at as u64 + 1);
    }
}

/// Compares what an entry hands over with the next batch of the listener of its instance.
fn hand_entry<S>(
    tracks: &mut BTreeMap<u32, Track>,
    ended: &[Ended<S>],
    cut: u64,
    entry: &Entry,
    place: u64,
)
    requires { cut < place }
    ensures { (o : Option Batch) → HandsOver entry.now place o
        → HandsOn cut (outcomes ended.now) o tracks.old tracks.new }
{
    if let Some((number, bytes)) = given(entry) {
        hand(tracks, ended, cut, number, place, bytes);
    }
}

/// Compares a batch with the next one of the listener of its instance.
fn hand<S>(
    tracks: &mut BTreeMap<u32, Track>,
    ended: &[Ended<S>],
    cut: u64,
    number: u32,
    place: u64,
    bytes: &[u8],
)
    requires { cut < place }
    ensures { (b : Batch) → IsSpelled b number place bytes.now
        → HandsOn cut (outcomes ended.now) (Some b) tracks.old tracks.new }
{
    if let Some(track) = tracks.get_mut(&number) {
        let handed = handed_at(ended, track.first);
        track.progress = track.progress.after(handed, cut, number, place, bytes);
    }
}

/// The number of the instance to which an entry hands a batch, and the bytes of its records.
fn given(entry: &Entry) -> Option<(u32, &[u8])>
    ensures { option_map (λ g. (g.0, g.1.now)) result ≡ given_by entry.now.call entry.now.reply }
{
    match &entry.call {
        Call::Pump { instance, .. } => match &entry.reply {
            Reply::Records(bytes) => Some((*instance, bytes.as_slice())),
            _ => None,
        },
        Call::Close { instance } => match &entry.reply {
            Reply::Done => Some((*instance, &[])),
            _ => None,
        },
        _ => None,
    }
}

/// Where the next batch since the cut stands, from here on.
fn next_since(handed: &[Batch], cut: u64, from: usize) -> usize
    ensures same { since cut (drop result handed.now) ≡ since cut (drop from handed.now) }
    ensures later { result < length handed.now → cut < (get_or handed.now result (batch 0 0 [])).place }
{
    for at in from..handed.len() {
        if handed[at].place > cut {
            return at;
        }
    }
    handed.len()
}

/// Whether it is the batch of this instance and sequence number whose records these bytes spell.
fn is_batch(one: &Batch, instance: u32, place: u64, bytes: &[u8]) -> bool
    ensures { (b : Batch) → IsSpelled b instance place bytes.now → IsTrue result ↔ (b ≡ one.now) }
{
    spellings_are_one();
    is_at(one, instance, place) && spells(one.records.as_slice(), bytes)
}

/// Whether it is a batch of this instance and sequence number.
fn is_at(one: &Batch, instance: u32, place: u64) -> bool
    ensures { IsTrue result ↔ ((one.now.instance ≡ instance) × (one.now.place ≡ place)) }
{
    one.instance == instance && one.place == place
}

/// The batches that the listener at an index was handed.
fn handed_at<S>(ended: &[Ended<S>], at: Option<usize>) -> &[Batch]
    ensures { result.now ≡ handed_at (outcomes ended.now) at }
{
    match at {
        Some(at) if at < ended.len() => ended[at].handed(),
        _ => &[],
    }
}

/// Whether the listener at an index ended by the end batch.
fn is_ended_at<S>(ended: &[Ended<S>], at: Option<usize>) -> bool
    ensures { IsTrue result ↔ EndsLastAt (outcomes ended.now) at }
{
    match at {
        Some(at) if at < ended.len() => matches!(ended[at].cause(), Cause::Last),
        _ => false,
    }
}

/// What is wrong with the least number with which anything is.
fn first_fault<S>(
    tracks: &BTreeMap<u32, Track>,
    ended: &[Ended<S>],
    cut: u64,
) -> Option<SettleFault>
    ensures { (b : BookContents) → b.state.place ≡ cut
        → ((n : ℕ) → IsTracked b (outcomes ended.now) [] n (track_at tracks.now n))
        → MatchOption result ((n : ℕ) → IsServedAt b (outcomes ended.now) n)
        (λ f. IsFirstFault b (outcomes ended.now) f) }
{
    for (number, track) in tracks {
        if let Some(fault) = fault_of(*number, track, ended, cut) {
            return Some(fault);
        }
    }
    None
}

/// What is wrong with an instance, once all batches were compared.
fn fault_of<S>(number: u32, track: &Track, ended: &[Ended<S>], cut: u64) -> Option<SettleFault>
    ensures { (b : BookContents) → b.state.place ≡ cut → IsTracked b (outcomes ended.now) [] number (Some track.now)
        → MatchOption result (IsServedAt b (outcomes ended.now) number)
        (λ f. IsFaultAt b (outcomes ended.now) number f) }
{
    let differing = |place| SettleFault::HandedDiffers {
        instance: number,
        place,
    };
    if !track.is_piped {
        return Some(differing(0));
    }
    if !is_ended_at(ended, track.first) {
        return Some(SettleFault::NotEnded(number));
    }
    match track
        .progress
        .difference(handed_at(ended, track.first), cut)
    {
        Some(place) => Some(differing(place)),
        None if track.is_again => Some(differing(0)),
        None => None,
    }
}

impl Track {
    /// Of an instance for which no listener is known yet.
    fn blank(is_piped: bool) -> Track
        ensures { result ≡ blank is_piped }
    {
        Track {
            is_piped,
            first: None,
            is_again: false,
            progress: Progress {
                taken: 0,
                differs: None,
            },
        }
    }

    /// The same once one more listener ended, the one at this index.
    fn noting(self, at: usize) -> Track
        ensures { result ≡ noted at (Some self) }
    {
        if self.first.is_some() {
            Track {
                is_again: true,
                ..self
            }
        } else {
            Track {
                first: Some(at),
                ..self
            }
        }
    }
}

impl Progress {
    /// What it becomes by a batch that the journal hands over, where these were handed to the listener.
    fn after(self, handed: &[Batch], cut: u64, instance: u32, place: u64, bytes: &[u8]) -> Progress
        requires { cut < place }
        ensures { (b : Batch) → IsSpelled b instance place bytes.now → Follows cut handed.now (b ∷ []) self result }
    {
        if self.differs.is_some() {
            return self;
        }
        let taken = next_since(handed, cut, self.taken);
        if taken < handed.len() && is_batch(&handed[taken], instance, place, bytes) {
            Progress {
                taken: taken + 1,
                differs: None,
            }
        } else {
            Progress {
                taken,
                differs: Some(place),
            }
        }
    }

    /// The sequence number of the first batch that is not the journal's, if no more is handed over.
    fn difference(self, handed: &[Batch], cut: u64) -> Option<u64>
        ensures { Comes cut [] handed.now self result }
    {
        if self.differs.is_some() {
            return self.differs;
        }
        let taken = next_since(handed, cut, self.taken);
        if taken < handed.len() {
            Some(handed[taken].place)
        } else {
            None
        }
    }
}
