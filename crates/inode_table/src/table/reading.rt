//! What stands at a node. None of these calls takes memory.

ghost use Rattle.std.specs.Prelude.{◌≡◌, List, Some, None, IsSome};
ghost use Rattle.std.specs.Option.{option_map, IsSomeAnd};
ghost use Rattle.std.specs.FinMap as finmap;
ghost use Rattle.std.specs.List.Sorted.{IsStrictlySortedBy};
ghost use Rattle.std.specs.Ordering.{nat_cmp};
ghost use Rattle.std.specs.Cmp.Lexicographic.{slice_cmp};
ghost use Rattle.std.specs.Map.Iter.{ShowsInOrder, deref};
ghost use Rattle.inode_table.specs.Rows.{Label};

use super::Table;
use crate::key::Key;
use crate::seen::{Kind, Seen};
use record_codec::Name;
use std::collections::btree_map::Keys;
use tree_paths::Refusal;

impl Table {
    ghost use Rattle.inode_table.specs.World.{AreNamesOf, links};
    ghost use Rattle.inode_table.specs.TableWorld.{number_of, world_of, file_under};
    ghost use Rattle.inode_table.specs.Stands.{seen_at};

    /// The number of a node.
    pub fn number(&self, key: Key) -> u32
        requires there { IsSome (number_of self.now (Some key)) }
        ensures { number_of self.now (Some key) ≡ Some result }
    {
        self.node(key).number
    }

    /// Whether a node is a file or a directory.
    pub fn kind(&self, key: Key) -> Kind
        requires there { IsSome (number_of self.now (Some key)) }
        ensures { IsSomeAnd (file_under self.now key) (λ file. file.kind ≡ result) }
    {
        self.rows_law();
        self.node(key).content.kind()
    }

    /// The mode bits of a node.
    pub fn mode(&self, key: Key) -> u32
        requires there { IsSome (number_of self.now (Some key)) }
        ensures { IsSomeAnd (file_under self.now key) (λ file. file.mode ≡ result) }
    {
        self.rows_law();
        self.node(key).mode
    }

    /// The bytes of a file. A directory has none.
    pub fn content(&self, key: Key) -> &[u8]
        requires there { IsSome (number_of self.now (Some key)) }
        ensures { IsSomeAnd (file_under self.now key) (λ file. file.bytes ≡ result.now) }
    {
        self.rows_law();
        self.node(key).content.bytes()
    }

    /// How many paths lead to a node.
    pub fn links(&self, key: Key) -> u64
        requires there { IsSome (number_of self.now (Some key)) }
        ensures { option_map (links (world_of self.now)) (number_of self.now (Some key)) ≡ Some result }
    {
        self.rows_law();
        self.node(key).links
    }

    /// The names in a directory, in the order of their bytes, lent one by one.
    pub fn child_names(&self, key: Key) -> Keys<'_, Name, usize>
        requires directory { IsSomeAnd (file_under self.now key) (λ file. file.kind ≡ Kind.Directory) }
        ensures world { (p : List Label) → finmap.get (world_of self.now).paths p ≡ number_of self.now (Some key)
            → AreNamesOf (world_of self.now) p result }
        ensures ordered { IsStrictlySortedBy (slice_cmp nat_cmp) result }
        ensures runs { ShowsInOrder (deref {X = Label}) }
    {
        self.rows_law();
        self.node(key).content.names()
    }

    /// What decides whether a call on a node is refused.
    pub(super) fn seen_under(&self, key: Key) -> Seen
        requires there { IsSome (number_of self.now (Some key)) }
        ensures { seen_at self.now key ≡ Some result }
    {
        let node = self.node(key);
        Seen {
            number: node.number,
            kind: node.content.kind(),
            links: node.links,
            has_names: node.content.has_names(),
        }
    }
}
