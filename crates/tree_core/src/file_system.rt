//! The files and the instances: what they answer to each call.
ghost use Rattle.std.specs.Prelude.{◌≡◌, ◌≢◌, ◌⊎◌, ◌≤◌, ◌+◌, ◌^◌, None, Some, Ok, Err, IfOk, IfErr, OnOk, OnErr};
ghost use Rattle.std.specs.Prelude.{[], ◌∷◌, is_none, length, option_map, take};
ghost use Rattle.tree_core.specs.Snapshots.{IsSnapshotOf};
ghost use Rattle.std.specs.Option.{option_copied};
ghost use Rattle.record_codec.specs.Records.{AreEvents, spelling};
ghost use Rattle.tree_paths.specs.Rows.{first_row, row};
ghost use Rattle.tree_paths.specs.declared.refusal.Refusal.TheVariants.{Ebadf, Enomem};
ghost use Rattle.inode_table.specs.TableWorld.{world_of};
ghost use Rattle.tree_ops.specs.Moves.{cookies_of};
ghost use Rattle.event_rules.specs.Table.{notices_of};
ghost use Rattle.instance_table.specs.Instances.{all_changed, instance_of, told};
ghost use Rattle.tree_core.specs.Histories.{pumped};
ghost use Rattle.tree_core.specs.FileSystems.{tree_in, Attempts, Begins, CanFinish, IsNumbered, finished, reading};
ghost use Rattle.tree_core.specs.FileSystems.{LeadsTo, rest_of, taken};
ghost use Rattle.tree_core.specs.Tree.{opening, counts_of, init_rows, rm_watch_rows, read_rows, oldest};

use crate::call::Call;
use crate::reply::Reply;
use crate::snapshot::Snapshot;
use event_queue::{Fit, Queue};
use event_rules::{Notices, notices};
use inode_table::{Kind, Table};
use instance_table::{
    Instance, Instances, Staging, unwatched_files_need_no_telling, unwatched_instances_stay,
};
use record_codec::{Bytes, Events, append};
use std::alloc::{AllocError, Global};
use tree_ops::{CallPaths, Counts, FileCall, Paths, Ready, carry_out, check};
use tree_paths::{Limits, Path, Refusal};
use watch_table::Mask;

/// The number of the first file that is made: the root has the number 1.
const FIRST_NUMBER: u32 = 2;

/// The files, the open instances, the numbers that come next, and buffers for what a call raises.
pub struct FileSystem {
    pub(crate) alloc: Global,
    pub(crate) limits: Limits,
    pub(crate) table: Table,
    pub(crate) next_number: u32,
    pub(crate) next_cookie: u64,
    pub(crate) next_id: u32,
    pub(crate) instances: Instances,
    pub(crate) notices: Notices,
    pub(crate) staging: Staging,
}

impl Drop for FileSystem {
    fn drop(self) {
        let FileSystem {
            alloc: _,
            limits: _,
            table: _,
            next_number: _,
            next_cookie: _,
            next_id: _,
            instances: _,
            notices: _,
            staging: _,
        } = self;
    }
}

/// A call that was begun: what it answers, and what is left to do. Until that is done, a call whose reply has a list
/// leaves the tree as it was.
#[derive(Drop)]
pub struct Begun {
    pub reply: Reply,
    pub rest: Rest,
}

/// What is left to do of a call. It takes no memory.
#[derive(Drop)]
pub enum Rest {
    /// Nothing is left.
    Nothing,
    /// The staged events are delivered.
    Notify,
    /// The oldest records leave the queue of an instance. `index` is tried first.
    Take {
        instance: u32,
        index: usize,
        count: usize,
    },
}

impl Begun {
    /// A reply of which nothing is left to do.
    fn complete(reply: Reply) -> Begun
        ensures { result ≡ record { reply = reply; rest = Rest.Nothing } }
    {
        Begun {
            reply,
            rest: Rest::Nothing,
        }
    }
}

impl FileSystem {
    /// The root alone, and no instance.
    pub fn new(alloc: Global, limits: Limits) -> Result<FileSystem, Refusal>
        ensures ok { IfOk result (λ m. tree_in m ≡ opening limits) }
        ensures numbered { IfOk result (λ m. IsNumbered (tree_in m)) }
        ensures err { IfErr result (λ refusal. refusal ≡ Enomem) }
    {
        Ok(FileSystem {
            alloc,
            limits,
            table: Table::new(alloc)?,
            next_number: FIRST_NUMBER,
            next_cookie: 1,
            next_id: 1,
            instances: Instances::new(alloc),
            notices: Notices::new(alloc),
            staging: Staging::new(alloc),
        })
    }

    /// Returns a copy of the tree, with buffers of its own.
    pub fn copy(&self) -> Result<FileSystem, Refusal>
        ensures ok { IfOk result (λ m. tree_in m ≡ tree_in self.now) }
        ensures err { IfErr result (λ refusal. refusal ≡ Enomem) }
    {
        Ok(FileSystem {
            alloc: self.alloc,
            limits: self.limits,
            table: self.table.copy()?,
            next_number: self.next_number,
            next_cookie: self.next_cookie,
            next_id: self.next_id,
            instances: self.instances.copy()?,
            notices: Notices::new(self.alloc),
            staging: Staging::new(self.alloc),
        })
    }

    /// A snapshot of the tree after the entry with this sequence number.
    pub fn snapshot(&self, place: u64) -> Result<Snapshot, Refusal>
        ensures ok { IfOk result (IsSnapshotOf (tree_in self.now) place) }
        ensures err { IfErr result (λ refusal. refusal ≡ Enomem) }
    {
        Ok(Snapshot {
            paths: self.table.flat()?,
            files: self.table.files()?,
            instances: self.instances.rows()?,
            next_number: self.next_number,
            next_cookie: u32::try_from(self.next_cookie).unwrap_or(0),
            next_id: self.next_id,
            place,
        })
    }

    /// Begins a call, which may be refused: all that can fail. An error leaves the tree as it was.
    #[inline(always)]
    pub fn begin(&mut self, call: &Call) -> Result<Begun, Refusal>
        requires { IsNumbered (tree_in self.old) }
        ensures { Begins self.old call.now result self.new }
    {
        answered(self.attempt(call))
    }

    /// Begins a [`Call::Pump`].
    pub fn begin_pump(&self, id: u32, bytes: u32) -> Result<Begun, Refusal>
        requires { IsNumbered (tree_in self.now) }
        ensures begun { Begins self.now (Call.Pump id bytes) result self.now }
        ensures records { IfOk result (λ b. taken self.now b.rest ≡ pumped (tree_in self.now) id bytes) }
    {
        answered(self.read(id, bytes, true))
    }

    /// Does the rest of a call that was begun. It takes no memory.
    #[inline(always)]
    pub fn finish(&mut self, rest: Rest)
        requires { CanFinish self.old rest }
        ensures { tree_in self.new ≡ finished self.old rest }
    {
        match rest {
            Rest::Nothing => {}
            Rest::Notify => self
                .instances
                .deliver(self.notices.as_slice(), &mut self.staging),
            Rest::Take {
                instance,
                index,
                count,
            } => self.instances.drop_oldest(instance, index, count),
        }
    }

    /// Does the rest of a pump that was begun, and moves the records out of the queue. An error leaves all as it was.
    pub fn finish_pump(&mut self, rest: Rest) -> Result<Option<Events>, Refusal>
        requires { CanFinish self.old rest }
        ensures tree { OnOk result (tree_in self.new ≡ finished self.old rest) }
        ensures records { IfOk result (λ records. records ≡ taken self.old rest) }
        ensures err { OnErr result (self.new ≡ self.old) }
        ensures memory { IfErr result (λ refusal. refusal ≡ Enomem) }
    {
        let Rest::Take {
            instance,
            index,
            count,
        } = rest
        else {
            self.finish(rest);
            return Ok(None);
        };
        let mut records = Vec::with_capacity(self.alloc, count)?;
        self.instances
            .move_oldest(instance, index, count, &mut records);
        Ok(Some(Events::from_vec(records)))
    }

    /// Begins a call, or answers why it is refused.
    #[inline(always)]
    fn attempt(&mut self, call: &Call) -> Result<Begun, Refusal>
        requires { IsNumbered (tree_in self.old) }
        ensures { Attempts self.old call.now result self.new }
    {
        match call {
            Call::File(call) => self.file(call),
            Call::Init { limit, piped } => self.init(*limit, *piped),
            Call::AddWatch {
                instance,
                path,
                mask,
            } => self.add_watch(*instance, path, *mask),
            Call::RmWatch { instance, wd } => self.rm_watch(*instance, *wd),
            Call::Read { instance, bytes } => self.read(*instance, *bytes, false),
            Call::Pump { instance, bytes } => self.read(*instance, *bytes, true),
            Call::Close { instance } => self.close(*instance),
        }
    }

    /// What the next call on files gets.
    fn counts(&self) -> Counts
        ensures { result ≡ counts_of (tree_in self.now) }
    {
        Counts {
            next_number: self.next_number,
            next_cookie: u32::try_from(self.next_cookie).unwrap_or(0),
        }
    }

    /// Begins a call on files.
    fn file(&mut self, call: &FileCall) -> Result<Begun, Refusal>
        requires { IsNumbered (tree_in self.old) }
        ensures { Attempts self.old (Call.File call.now) result self.new }
    {
        let counts = self.counts();
        let found = CallPaths::resolve_recent(&mut self.table, call);
        let paths = Paths::on(&self.table, call, &found);
        let ready = check(&paths, &counts, &self.limits)?;
        let is_staged = stage_notices(
            &self.instances,
            &ready,
            counts.next_cookie,
            &mut self.notices,
            &mut self.staging,
        )?;
        let numbers = ready.numbers();
        let cookies = ready.cookies();
        let plan = ready.into_plan();
        let answer = carry_out(self.alloc, &mut self.table, &plan)?;
        self.next_number += numbers;
        self.next_cookie += u64::from(cookies);
        Ok(Begun {
            reply: Reply::File(answer),
            rest: rest_of(is_staged),
        })
    }

    /// Why no instance is made.
    #[tactic(auto, unfolding(crate::specs::Tree::init_rows))]
    fn check_init(&self, limit: u32) -> Result<(), Refusal>
        ensures passes { OnOk result (first_row (init_rows self.now.limits self.now.instances self.now.next_id limit)
            ≡ None) }
        ensures refused { IfErr result (λ r.
            first_row (init_rows self.now.limits self.now.instances self.now.next_id limit) ≡ Some r) }
    {
        if limit == 0 || limit > self.limits.queue {
            return Err(Refusal::Einval);
        }
        if self.instances.len() >= self.limits.instances as usize {
            return Err(Refusal::Emfile);
        }
        if self.next_id > self.limits.ids {
            return Err(Refusal::Emfile);
        }
        Ok(())
    }

    /// Makes an instance.
    fn init(&mut self, limit: u32, piped: bool) -> Result<Begun, Refusal>
        requires { IsNumbered (tree_in self.old) }
        ensures { Attempts self.old (Call.Init limit piped) result self.new }
    {
        self.check_init(limit)?;
        let id = self.next_id;
        self.instances.open(id, limit, piped, &self.limits)?;
        self.next_id += 1;
        Ok(Begun::complete(Reply::Instance(id)))
    }

    /// Watches a file.
    fn add_watch(&mut self, id: u32, path: &Path, mask: u32) -> Result<Begun, Refusal>
        requires { IsNumbered (tree_in self.old) }
        ensures { Attempts self.old (Call.AddWatch id path.now mask) result self.new }
    {
        let mut index = 0;
        if self.instances.find(id, &mut index).is_none() {
            return Err(Refusal::Ebadf);
        }
        let mask = Mask::of(mask);
        if let Some(refusal) = mask.fault() {
            return Err(refusal);
        }
        let seen = self.table.lookup(&self.table.resolve(path))?;
        let is_directory = seen.kind == Kind::Directory;
        let wd = self
            .instances
            .watch(id, index, seen.number, mask, is_directory)?;
        Ok(Begun::complete(Reply::Wd(wd)))
    }

    /// Ends a watch.
    fn rm_watch(&mut self, id: u32, wd: i32) -> Result<Begun, Refusal>
        requires { IsNumbered (tree_in self.old) }
        ensures { Attempts self.old (Call.RmWatch id wd) result self.new }
    {
        let mut index = 0;
        check_rm_watch(self.instances.find(id, &mut index), wd)?;
        self.instances.unwatch(id, index, wd);
        Ok(Begun::complete(Reply::Done))
    }

    /// Begins a read, or a pump.
    fn read(&self, id: u32, bytes: u32, pumps: bool) -> Result<Begun, Refusal>
        requires { IsNumbered (tree_in self.now) }
        ensures begun { Attempts self.now (reading pumps id bytes) result self.now }
        ensures records { IfOk result (λ b.
            taken self.now b.rest ≡ option_map (oldest bytes) (instance_of self.now.instances id)) }
    {
        let mut index = 0;
        let instance = check_read(self.instances.find(id, &mut index), bytes, pumps)?;
        let fit = instance.queue.fit_len(bytes as usize);
        let records = spelled(self.alloc, &instance.queue, fit)?;
        Ok(Begun {
            reply: Reply::Records(records),
            rest: Rest::Take {
                instance: id,
                index,
                count: fit.count,
            },
        })
    }

    /// Closes an instance.
    fn close(&mut self, id: u32) -> Result<Begun, Refusal>
        requires { IsNumbered (tree_in self.old) }
        ensures { Attempts self.old (Call.Close id) result self.new }
    {
        let mut index = 0;
        check_close(self.instances.find(id, &mut index))?;
        self.instances.close(id, index);
        Ok(Begun::complete(Reply::Done))
    }
}

/// What a call answers that was begun or refused. A refusal is a reply, and out of memory is an error.
#[inline(always)]
fn answered(begun: Result<Begun, Refusal>) -> Result<Begun, Refusal>
    ensures begun { IfOk begun (λ b. result ≡ Ok b) }
    ensures refused { IfErr begun (λ r. ((r ≡ Enomem) × (result ≡ Err Enomem))
        ⊎ ((r ≢ Enomem) × (result ≡ Ok (record { reply = Reply.Refused r; rest = Rest.Nothing })))) }
{
    match begun {
        Err(refusal) if refusal != Refusal::Enomem => {
            Ok(Begun::complete(Reply::Refused(refusal)))
        }
        begun => begun,
    }
}

/// What is left to do of a call on files.
#[inline(always)]
fn rest_of(is_staged: bool) -> Rest
    ensures { result ≡ rest_of is_staged }
{
    if is_staged {
        Rest::Notify
    } else {
        Rest::Nothing
    }
}

/// Stages what an accepted call raises for the files that are watched. If it concerns no such file, it has no
/// recipients, and nothing is staged. The answer says which.
#[inline(always)]
fn stage_notices(
    instances: &Instances,
    ready: &Ready,
    cookie: u32,
    noted: &mut Notices,
    staging: &mut Staging,
) -> Result<bool, Refusal>
    requires { cookie + cookies_of (world_of ready.now.tree) ready.now.plan.call ≤ 2 ^ 32 }
    ensures staged { IfOk result (λ is_staged. LeadsTo is_staged instances.now noted.new staging.new
        (all_changed instances.now (told (notices_of (world_of ready.now.tree) ready.now.plan.call cookie)))) }
    ensures memory { IfErr result (λ refusal. refusal ≡ Enomem) }
{
    unwatched_instances_stay();
    unwatched_files_need_no_telling();
    if !instances.is_watching() {
        return Ok(false);
    }
    notices(ready, cookie, instances.watch_filter(), noted)?;
    if noted.as_slice().is_empty() {
        return Ok(false);
    }
    instances.stage(noted.as_slice(), staging)?;
    Ok(true)
}

/// Why no watch is ended.
#[tactic(auto, unfolding(crate::specs::Tree::rm_watch_rows))]
fn check_rm_watch(instance: Option<&Instance>, wd: i32) -> Result<(), Refusal>
    ensures passes { OnOk result (first_row (rm_watch_rows wd (option_copied instance.entry)) ≡ None) }
    ensures refused { IfErr result (λ r. first_row (rm_watch_rows wd (option_copied instance.entry)) ≡ Some r) }
{
    let Some(instance) = instance else {
        return Err(Refusal::Ebadf);
    };
    if instance.watches.watched_by(wd).is_none() {
        return Err(Refusal::Einval);
    }
    Ok(())
}

/// The instance that is read, or pumped, or why nothing is.
#[tactic(auto, unfolding(crate::specs::Tree::read_rows))]
fn check_read(instance: Option<&Instance>, bytes: u32, pumps: bool) -> Result<&Instance, Refusal>
    ensures passes { OnOk result (first_row (read_rows pumps bytes (option_copied instance.entry)) ≡ None) }
    ensures there { IfOk result (λ i. option_copied instance.entry ≡ Some i.now) }
    ensures refused { IfErr result (λ r. first_row (read_rows pumps bytes (option_copied instance.entry)) ≡ Some r) }
{
    let Some(instance) = instance else {
        return Err(Refusal::Ebadf);
    };
    if pumps && !instance.is_piped {
        return Err(Refusal::NotPiped);
    }
    if !pumps && instance.is_piped {
        return Err(Refusal::Piped);
    }
    if instance.queue.is_empty() {
        return Err(Refusal::Eagain);
    }
    if !instance.queue.any_fits(bytes as usize) {
        return Err(Refusal::Einval);
    }
    Ok(instance)
}

/// Why no instance is closed.
fn check_close(instance: Option<&Instance>) -> Result<(), Refusal>
    ensures passes { OnOk result (first_row (row (is_none (option_copied instance.entry)) Ebadf ∷ []) ≡ None) }
    ensures refused { IfErr result (λ r. first_row (row (is_none (option_copied instance.entry)) Ebadf ∷ []) ≡ Some r) }
{
    match instance {
        Some(_) => Ok(()),
        None => Err(Refusal::Ebadf),
    }
}

/// The bytes of the oldest records, in a buffer that is allocated once.
fn spelled(alloc: Global, queue: &Queue, fit: Fit) -> Result<Bytes, AllocError>
    requires { fit.count ≤ length queue.now.waiting }
    ensures bytes { IfOk result (λ bytes. bytes ≡ spelling (take fit.count queue.now.waiting)) }
    ensures events { OnOk result (AreEvents (take fit.count queue.now.waiting)) }
{
    let mut bytes = Vec::with_capacity(alloc, fit.len)?;
    for index in 0..fit.count {
        let Some(event) = queue.peek(index) else {
            unreachable!()
        };
        append(event, &mut bytes)?;
    }
    Ok(Bytes::from_vec(bytes))
}
