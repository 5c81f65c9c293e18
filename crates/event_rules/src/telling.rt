//! The notices of calls on files.

ghost use Rattle.std.specs.Prelude.{◌≡◌, ◌++◌, ◌+◌, ◌≤◌, ◌<◌, ◌^◌, [], nat_lt, length, take, drop, IfErr, OnOk};
ghost use Rattle.inode_table.specs.World.{look};
ghost use Rattle.inode_table.specs.TableWorld.{world_of};
ghost use Rattle.record_codec.specs.declared.bits.TheConstants.{IN_ATTRIB, IN_CREATE, IN_DELETE, IN_MODIFY};
ghost use Rattle.tree_ops.specs.After.{bytes_at};
ghost use Rattle.tree_ops.specs.Moves.{cookies_of, moves_of};
ghost use Rattle.event_rules.specs.Raised.{heard};
ghost use Rattle.event_rules.specs.declared.notice.TheConstants.{NO_COOKIE};
ghost use Rattle.event_rules.specs.Table.{about, create_told, kind_seen, move_told, notices_of, path_lost, read_told};
ghost use Rattle.event_rules.specs.Table.{swap_told, to_both, to_dir, to_self, write_told};

use crate::audience::Audience;
use crate::notice::{NO_COOKIE, Notice, Notices};
use crate::subject::Subject;
use inode_table::{Kind, Seen};
use record_codec::bits;
use std::alloc::AllocError;
use tree_ops::{FileCall, Moves, Ready};
use tree_paths::Refusal;

fn kind_seen(seen: Option<Seen>) -> Kind
    ensures { result ≡ kind_seen seen }
{
    match seen {
        Some(seen) => seen.kind,
        None => Kind::Regular,
    }
}

/// The bits of an event that is about an object of this kind.
fn about(kind: Kind, event: u32) -> u32
    ensures { result ≡ about kind event }
{
    match kind {
        Kind::Regular => event,
        Kind::Directory => event | bits::IN_ISDIR,
    }
}

impl Notices {
    /// Notifies the directory of a path's last name of an object of this kind there.
    #[tactic(auto, unfolding(crate::specs::Table::to_dir))]
    fn notify_directory<A: Audience>(
        &mut self,
        at: &Subject<A>,
        kind: Kind,
        event: u32,
        cookie: u32,
    ) -> Result<(), AllocError>
        ensures { OnOk result (self.new ≡ self.old ++ heard (A.may_watch at.now.audience)
            (to_dir (look (world_of at.now.at.tree)) at.now.at.path.names kind event cookie)) }
    {
        let Some(directory) = at.watched_directory() else {
            return Ok(());
        };
        let Some(name) = at.as_path().last_name_ref() else {
            return Ok(());
        };
        self.push(Notice::Told {
            number: directory.number,
            bits: about(kind, event),
            cookie,
            name: Some(name.to_name()?),
        })
    }

    /// Notifies an object itself.
    fn notify_file(&mut self, seen: Option<Seen>, bits: u32) -> Result<(), AllocError>
        ensures { OnOk result (self.new ≡ self.old ++ to_self seen bits) }
    {
        match seen {
            Some(seen) => self.push(Notice::Told {
                number: seen.number,
                bits,
                cookie: NO_COOKIE,
                name: None,
            }),
            None => Ok(()),
        }
    }

    /// Notifies both.
    #[tactic(auto, unfolding(crate::specs::Table::to_both))]
    fn notify_both<A: Audience>(&mut self, at: &Subject<A>, event: u32) -> Result<(), AllocError>
        ensures { OnOk result (self.new ≡ self.old ++ heard (A.may_watch at.now.audience)
            (to_both (look (world_of at.now.at.tree)) at.now.at.path.names event)) }
    {
        let kind = kind_seen(at.object());
        self.notify_directory(at, kind, event, NO_COOKIE)?;
        self.notify_file(at.watched(), about(kind, event))
    }

    /// Notifies an object that it loses a path.
    #[tactic(auto, unfolding(crate::specs::Table::path_lost))]
    fn notify_path_lost(&mut self, seen: Option<Seen>) -> Result<(), AllocError>
        ensures { OnOk result (self.new ≡ self.old ++ path_lost seen) }
    {
        let Some(seen) = seen else {
            return Ok(());
        };
        if matches!(seen.kind, Kind::Regular) {
            self.notify_file(Some(seen), bits::IN_ATTRIB)?;
            if seen.links != 1 {
                return Ok(());
            }
        }
        self.notify_file(Some(seen), bits::IN_DELETE_SELF)?;
        self.push(Notice::Gone {
            number: seen.number,
        })
    }
}

#[tactic(auto, unfolding(crate::specs::Table::create_told))]
fn create<A: Audience>(told: &mut Notices, at: &Subject<A>) -> Result<(), AllocError>
    requires { told.old ≡ [] }
    ensures { OnOk result (told.new
        ≡ heard (A.may_watch at.now.audience) (create_told (look (world_of at.now.at.tree)) at.now.at.path.names)) }
{
    told.notify_directory(at, Kind::Regular, bits::IN_CREATE, NO_COOKIE)?;
    told.notify_directory(at, Kind::Regular, bits::IN_OPEN, NO_COOKIE)?;
    told.notify_directory(at, Kind::Regular, bits::IN_CLOSE_WRITE, NO_COOKIE)?;
    Ok(())
}

fn mkdir<A: Audience>(told: &mut Notices, at: &Subject<A>) -> Result<(), AllocError>
    requires { told.old ≡ [] }
    ensures { OnOk result (told.new ≡ heard (A.may_watch at.now.audience)
        (to_dir (look (world_of at.now.at.tree)) at.now.at.path.names Kind.Directory IN_CREATE NO_COOKIE)) }
{
    told.notify_directory(at, Kind::Directory, bits::IN_CREATE, NO_COOKIE)?;
    Ok(())
}

#[tactic(auto, unfolding(crate::specs::Table::write_told))]
fn write<A: Audience>(told: &mut Notices, at: &Subject<A>, is_given: bool) -> Result<(), AllocError>
    requires { told.old ≡ [] }
    ensures { OnOk result (told.new ≡ heard (A.may_watch at.now.audience)
        (write_told (look (world_of at.now.at.tree)) at.now.at.path.names is_given)) }
{
    told.notify_both(at, bits::IN_OPEN)?;
    if is_given {
        told.notify_both(at, bits::IN_MODIFY)?;
    }
    told.notify_both(at, bits::IN_CLOSE_WRITE)?;
    Ok(())
}

/// Whether a read answers a byte.
fn is_answered<A: Audience>(at: &Subject<A>, offset: u64, count: u32) -> bool
    ensures { result
        ≡ nat_lt 0 (length (take count (drop offset (bytes_at (world_of at.now.at.tree) at.now.at.path.names)))) }
{
    match at.object() {
        Some(_) => count > 0 && offset < at.content().len() as u64,
        None => false,
    }
}

#[tactic(auto, unfolding(crate::specs::Table::read_told))]
fn read<A: Audience>(
    told: &mut Notices,
    at: &Subject<A>,
    is_answered: bool,
) -> Result<(), AllocError>
    requires { told.old ≡ [] }
    ensures { OnOk result (told.new ≡ heard (A.may_watch at.now.audience)
        (read_told (look (world_of at.now.at.tree)) at.now.at.path.names is_answered)) }
{
    told.notify_both(at, bits::IN_OPEN)?;
    if is_answered {
        told.notify_both(at, bits::IN_ACCESS)?;
    }
    told.notify_both(at, bits::IN_CLOSE_NOWRITE)?;
    Ok(())
}

fn truncate<A: Audience>(told: &mut Notices, at: &Subject<A>) -> Result<(), AllocError>
    requires { told.old ≡ [] }
    ensures { OnOk result (told.new ≡ heard (A.may_watch at.now.audience)
        (to_both (look (world_of at.now.at.tree)) at.now.at.path.names IN_MODIFY)) }
{
    told.notify_both(at, bits::IN_MODIFY)?;
    Ok(())
}

fn chmod<A: Audience>(told: &mut Notices, at: &Subject<A>) -> Result<(), AllocError>
    requires { told.old ≡ [] }
    ensures { OnOk result (told.new ≡ heard (A.may_watch at.now.audience)
        (to_both (look (world_of at.now.at.tree)) at.now.at.path.names IN_ATTRIB)) }
{
    told.notify_both(at, bits::IN_ATTRIB)?;
    Ok(())
}

fn link<A: Audience>(
    told: &mut Notices,
    old: &Subject<A>,
    new: &Subject<A>,
) -> Result<(), AllocError>
    requires empty { told.old ≡ [] }
    requires same { new.now.at.tree ≡ old.now.at.tree }
    requires audience { new.now.audience ≡ old.now.audience }
    ensures { OnOk result (told.new ≡ heard (A.may_watch old.now.audience)
        (to_self (look (world_of old.now.at.tree) old.now.at.path.names) IN_ATTRIB
        ++ to_dir (look (world_of old.now.at.tree)) new.now.at.path.names Kind.Regular IN_CREATE NO_COOKIE)) }
{
    told.notify_file(old.watched(), bits::IN_ATTRIB)?;
    told.notify_directory(new, Kind::Regular, bits::IN_CREATE, NO_COOKIE)?;
    Ok(())
}

fn unlink<A: Audience>(told: &mut Notices, at: &Subject<A>) -> Result<(), AllocError>
    requires { told.old ≡ [] }
    ensures { OnOk result (told.new ≡ heard (A.may_watch at.now.audience)
        (path_lost (look (world_of at.now.at.tree) at.now.at.path.names)
        ++ to_dir (look (world_of at.now.at.tree)) at.now.at.path.names Kind.Regular IN_DELETE NO_COOKIE)) }
{
    told.notify_path_lost(at.watched())?;
    told.notify_directory(at, Kind::Regular, bits::IN_DELETE, NO_COOKIE)?;
    Ok(())
}

fn rmdir<A: Audience>(told: &mut Notices, at: &Subject<A>) -> Result<(), AllocError>
    requires { told.old ≡ [] }
    ensures { OnOk result (told.new ≡ heard (A.may_watch at.now.audience)
        (path_lost (look (world_of at.now.at.tree) at.now.at.path.names)
        ++ to_dir (look (world_of at.now.at.tree)) at.now.at.path.names Kind.Directory IN_DELETE NO_COOKIE)) }
{
    told.notify_path_lost(at.watched())?;
    told.notify_directory(at, Kind::Directory, bits::IN_DELETE, NO_COOKIE)?;
    Ok(())
}

#[tactic(auto, unfolding(crate::specs::Table::move_told))]
fn rename<A: Audience>(
    told: &mut Notices,
    old: &Subject<A>,
    new: &Subject<A>,
    cookie: u32,
) -> Result<(), AllocError>
    requires empty { told.old ≡ [] }
    requires same { new.now.at.tree ≡ old.now.at.tree }
    requires audience { new.now.audience ≡ old.now.audience }
    ensures { OnOk result (told.new ≡ heard (A.may_watch old.now.audience)
        (move_told (look (world_of old.now.at.tree)) old.now.at.path.names new.now.at.path.names cookie)) }
{
    let kind = kind_seen(old.object());
    told.notify_directory(old, kind, bits::IN_MOVED_FROM, cookie)?;
    told.notify_directory(new, kind, bits::IN_MOVED_TO, cookie)?;
    told.notify_path_lost(new.watched())?;
    told.notify_file(old.watched(), bits::IN_MOVE_SELF)?;
    Ok(())
}

#[tactic(auto, unfolding(crate::specs::Table::swap_told))]
fn exchange<A: Audience>(
    told: &mut Notices,
    old: &Subject<A>,
    new: &Subject<A>,
    cookie: u32,
) -> Result<(), AllocError>
    requires empty { told.old ≡ [] }
    requires same { new.now.at.tree ≡ old.now.at.tree }
    requires audience { new.now.audience ≡ old.now.audience }
    requires next { cookie + 1 < 2 ^ 32 }
    ensures { OnOk result (told.new ≡ heard (A.may_watch old.now.audience)
        (swap_told (look (world_of old.now.at.tree)) old.now.at.path.names new.now.at.path.names cookie)) }
{
    let next = cookie + 1;
    let one_kind = kind_seen(old.object());
    let other_kind = kind_seen(new.object());
    told.notify_directory(old, one_kind, bits::IN_MOVED_FROM, cookie)?;
    told.notify_directory(new, one_kind, bits::IN_MOVED_TO, cookie)?;
    told.notify_file(old.watched(), bits::IN_MOVE_SELF)?;
    told.notify_directory(new, other_kind, bits::IN_MOVED_FROM, next)?;
    told.notify_directory(old, other_kind, bits::IN_MOVED_TO, next)?;
    told.notify_file(new.watched(), bits::IN_MOVE_SELF)?;
    Ok(())
}

/// The notices of a call that moves nothing.
fn notify_unmoved<A: Audience>(
    told: &mut Notices,
    ready: &Ready,
    audience: &A,
    cookie: u32,
) -> Result<(), AllocError>
    requires empty { told.old ≡ [] }
    requires still { moves_of (world_of ready.now.tree) ready.now.plan.call ≡ Moves.Nothing }
    ensures { OnOk result (told.new
        ≡ heard (A.may_watch audience.now) (notices_of (world_of ready.now.tree) ready.now.plan.call cookie)) }
{
    match ready.call() {
        FileCall::Create { .. } => create(told, &Subject::at_path(ready, audience)),
        FileCall::Mkdir { .. } => mkdir(told, &Subject::at_path(ready, audience)),
        FileCall::Write { bytes, .. } => {
            write(
                told,
                &Subject::at_path(ready, audience),
                !bytes.as_slice().is_empty(),
            )
        }
        FileCall::ReadFile { offset, count, .. } => {
            let at = Subject::at_path(ready, audience);
            read(told, &at, is_answered(&at, *offset, *count))
        }
        FileCall::Truncate { .. } => truncate(told, &Subject::at_path(ready, audience)),
        FileCall::Chmod { .. } => chmod(told, &Subject::at_path(ready, audience)),
        FileCall::Link { .. } => link(
            told,
            &Subject::at_path(ready, audience),
            &Subject::at_other_path(ready, audience),
        ),
        FileCall::Unlink { .. } => unlink(told, &Subject::at_path(ready, audience)),
        FileCall::Rmdir { .. } => rmdir(told, &Subject::at_path(ready, audience)),
        FileCall::Rename { .. } | FileCall::Rename2 { .. } => Ok(()),
        FileCall::Stat { .. } | FileCall::List { .. } => Ok(()),
    }
}

/// The notices of a call.
fn notify_call<A: Audience>(
    told: &mut Notices,
    ready: &Ready,
    audience: &A,
    cookie: u32,
) -> Result<(), AllocError>
    requires empty { told.old ≡ [] }
    requires cookies { cookie + cookies_of (world_of ready.now.tree) ready.now.plan.call ≤ 2 ^ 32 }
    ensures { OnOk result (told.new
        ≡ heard (A.may_watch audience.now) (notices_of (world_of ready.now.tree) ready.now.plan.call cookie)) }
{
    match ready.moves() {
        Moves::Nothing => notify_unmoved(told, ready, audience, cookie),
        Moves::Move => {
            let old = Subject::at_path(ready, audience);
            rename(told, &old, &Subject::at_other_path(ready, audience), cookie)
        }
        Moves::Exchange => {
            let old = Subject::at_path(ready, audience);
            exchange(told, &old, &Subject::at_other_path(ready, audience), cookie)
        }
    }
}

/// The notices of an accepted call for the files that are watched, in the table that it was checked on, in place of
/// what `told` held. `cookie` is that of a rename that moves something, and the first of an exchange. Each cookie that
/// the call uses fits in a record.
///
/// # Errors
/// `ENOMEM` alone.
pub fn notices<A: Audience>(
    ready: &Ready,
    cookie: u32,
    audience: &A,
    told: &mut Notices,
) -> Result<(), Refusal>
    requires cookies { cookie + cookies_of (world_of ready.now.tree) ready.now.plan.call ≤ 2 ^ 32 }
    ensures told { OnOk result (told.new
        ≡ heard (A.may_watch audience.now) (notices_of (world_of ready.now.tree) ready.now.plan.call cookie)) }
    ensures memory { IfErr result (λ refusal. refusal ≡ Refusal.Enomem) }
{
    told.clear();
    notify_call(told, ready, audience, cookie)?;
    Ok(())
}
