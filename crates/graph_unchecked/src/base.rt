//! Parts of files, as a base on which newer commits stand.

ghost use Rattle.std.specs.Prelude.{length};
ghost use Rattle.graph_unchecked.specs.KnownLayers.{IsFoundByParts, IsIdByParts};
ghost use Rattle.graph_unchecked.specs.PartSource.{KnownParts, known_parts};

use crate::ids::read_id;
use crate::lookup::find;
use crate::source::TrustedCommits;
use crate::unread::Unread;
use gix_commitgraph::Position;
use gix_hash_core::{ObjectId, oid};
use graph_folder::folder::Folder;
use newer_commits::Base;

/// Where it is known what stands in the folder, ids are found as in the layers of its files.
impl<'a, T: Folder> Base for TrustedCommits<'a, T> {
    ghost Facts = { KnownParts };

    ghost facts = { λ s. known_parts (T.tree s.folder.now) s.parts.now s.failures
        s.folder.ghost_name s.parts.ghost_name };

    ghost finds = { IsFoundByParts };

    ghost has_id = { IsIdByParts };

    ghost layers = { λ k. length k.files };

    ghost follow = { λ _ _ same. same };

    fn num_layers(&self) -> usize {
        self.parts.num_layers()
    }

    fn position_of(&mut self, id: oid<'_>) -> Result<Option<Position>, Unread> {
        if self.failed {
            return Err(Unread::NotByParts);
        }
        match find(self.alloc, self.folder, self.parts, id) {
            Err(Unread::Device) => {
                self.failed = true;
                Err(Unread::NotByParts)
            }
            answer => answer,
        }
    }

    fn id_at(&mut self, pos: Position) -> Result<ObjectId, Unread> {
        if self.failed {
            return Err(Unread::NotByParts);
        }
        match read_id(self.alloc, self.folder, self.parts, pos) {
            Err(Unread::Device) => {
                self.failed = true;
                Err(Unread::NotByParts)
            }
            answer => answer,
        }
    }
}
