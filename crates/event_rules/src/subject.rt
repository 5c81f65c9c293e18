//! What a call is about.

ghost use Rattle.std.specs.Prelude.{◌≡◌, IsSome};
ghost use Rattle.inode_table.specs.Refusals.{parent_of};
ghost use Rattle.inode_table.specs.TableWorld.{world_of};
ghost use Rattle.inode_table.specs.World.{look};
ghost use Rattle.tree_ops.specs.After.{bytes_at};
ghost use Rattle.tree_ops.specs.CallPaths.{other_path_of, path_of};
ghost use Rattle.event_rules.specs.Subjects.{seen_watched};

use crate::audience::Audience;
use inode_table::Seen;
use std::marker::Model;
use tree_ops::{Lookup, Ready};
use tree_paths::Path;

// The object at a path of a call, and the directory of the path's last name, each looked up once; and who knows whether
// they may be watched.
#[derive(Drop)]
pub(crate) struct Subject<'t, 'p, 'a, A: Audience> {
    audience: &'a A,
    path: Lookup<'t, 'p>,
    object: Option<Seen>,
    directory: Option<Seen>,
}

impl<'t, 'p, 'a, A: Audience> Model for Subject<'t, 'p, 'a, A> {
    ghost use Rattle.event_rules.specs.Subjects.{IsSubjectOf, SubjectValue};

    ghost Value = { SubjectValue A };

    ghost view = { λ s. record { at = s.path; audience = s.audience.now } };

    ghost invariant = { λ s. IsSubjectOf s.path s.object s.directory };
}

impl<'t, 'p, 'a, A: Audience> Subject<'t, 'p, 'a, A> {
    #[inline(always)]
    fn new(path: Lookup<'t, 'p>, audience: &'a A) -> Subject<'t, 'p, 'a, A>
        ensures at { result.at ≡ path.entry }
        ensures audience { result.audience ≡ audience.now }
    {
        let object = path.seen();
        let directory = path.find_parent().ok();
        Subject {
            audience,
            path,
            object,
            directory,
        }
    }

    /// The subject at the call's path: the old one, if it has two.
    #[inline(always)]
    pub(crate) fn at_path<'r>(ready: &Ready<'r, 't, 'p>, audience: &'a A) -> Subject<'t, 'p, 'a, A>
        ensures tree { result.at.tree ≡ ready.now.tree }
        ensures names { result.at.path.names ≡ path_of ready.now.plan.call }
        ensures audience { result.audience ≡ audience.now }
    {
        Subject::new(ready.path(), audience)
    }

    /// That of the new path.
    #[inline(always)]
    pub(crate) fn at_other_path<'r>(
        ready: &Ready<'r, 't, 'p>,
        audience: &'a A,
    ) -> Subject<'t, 'p, 'a, A>
        ensures tree { result.at.tree ≡ ready.now.tree }
        ensures names { result.at.path.names ≡ other_path_of ready.now.plan.call }
        ensures audience { result.audience ≡ audience.now }
    {
        Subject::new(ready.other_path(), audience)
    }

    pub(crate) fn as_path(&self) -> &'p Path
        ensures { result.now ≡ self.now.at.path.names }
    {
        self.path.as_path()
    }

    pub(crate) fn object(&self) -> Option<Seen>
        ensures { result ≡ look (world_of self.now.at.tree) self.now.at.path.names }
    {
        self.object
    }

    /// The object, if it may be watched.
    #[inline(always)]
    pub(crate) fn watched(&self) -> Option<Seen>
        ensures { result ≡ seen_watched (A.may_watch self.now.audience)
            (look (world_of self.now.at.tree) self.now.at.path.names) }
    {
        seen_watched(self.audience, self.object)
    }

    /// The directory of the path's last name, if it may be watched.
    #[inline(always)]
    pub(crate) fn watched_directory(&self) -> Option<Seen>
        ensures { result ≡ seen_watched (A.may_watch self.now.audience)
            (look (world_of self.now.at.tree) (parent_of self.now.at.path.names)) }
    {
        seen_watched(self.audience, self.directory)
    }

    /// The bytes of a file that is there.
    pub(crate) fn content(&self) -> &'t [u8]
        requires { IsSome (look (world_of self.now.at.tree) self.now.at.path.names) }
        ensures { result.now ≡ bytes_at (world_of self.now.at.tree) self.now.at.path.names }
    {
        self.path.content()
    }
}

/// What is seen, if it may be watched.
#[inline(always)]
fn seen_watched<A: Audience>(audience: &A, seen: Option<Seen>) -> Option<Seen>
    ensures { result ≡ seen_watched (A.may_watch audience.now) seen }
{
    let seen = seen?;
    if !audience.may_be_watched(seen.number) {
        return None;
    }
    Some(seen)
}
