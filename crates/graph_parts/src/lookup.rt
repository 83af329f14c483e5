//! The lookup of an id.

ghost use Rattle.std.specs.Prelude.{◌≡◌, IfOk};
ghost use Rattle.gix_hash_core.specs.Oid.{oid_bytes};
ghost use Rattle.graph_folder.specs.Failures.{failures_after};
ghost use Rattle.graph_format.specs.Layer.{Layer};
ghost use Rattle.graph_parts.specs.Lookups.{LiesWithin, LooksUpInLayer};
ghost use Rattle.graph_parts.specs.PartFiles.{commits_in};
ghost use Rattle.graph_parts.specs.PiecesRead.{LayerPartsWereRead};
ghost use Rattle.graph_parts.specs.ShownLayer.{IsLayerParts, SeesMoreOfLayer, ShowsLayer};

use crate::guesses::Guesses;
use crate::layer::LayerParts;
use gix_commitgraph::Position;
use gix_hash_core::oid;
use graph_folder::folder::{Folder, ReadError};
use std::alloc::Global;
use std::cmp::Ordering;

/// What the lookup of an id by parts answers.
#[derive(Clone, Copy, Debug, PartialEq, Eq)]
pub enum Lookup {
    /// The position of the commit that has the id.
    Found(Position),
    /// No commit with the id is found.
    Missing,
    /// A file no longer has the length that it had, or is to be read whole.
    NotByParts,
}

impl LayerParts {
    /// Looks up an id in the layer: of the ids that begin with the same byte those are looked at
    /// where it is guessed to stand, and then what is left is halved.
    pub(crate) fn position_of<T: Folder>(
        &mut self,
        alloc: Global,
        folder: &mut T,
        id: oid<'_>,
    ) -> Result<Lookup, ReadError>
        requires { IsLayerParts self.old }
        ensures parts { IsLayerParts self.new }
        ensures sees { SeesMoreOfLayer (T.tree folder.old) self.old self.new }
        ensures given { LayerPartsWereRead T.gives_part self.old
            → LayerPartsWereRead T.gives_part self.new }
        ensures within { IfOk result (LiesWithin (commits_in self.old.file)) }
        ensures answers { IfOk result (λ lookup. (layer : Layer)
            → ShowsLayer (T.tree folder.old) self.new layer
            → LooksUpInLayer layer (oid_bytes id.entry) lookup) }
        ensures tree { T.tree folder.new ≡ T.tree folder.old }
        ensures failures { T.failure_count folder.new
            ≡ failures_after result (T.failure_count folder.old) }
    {
        let wanted = id.as_bytes();
        let layout = self.file.head.layout;
        let size = layout.kind.len_in_bytes();
        if wanted.len() != size {
            return Ok(Lookup::Missing);
        }
        let span = self.file.head.span(id.first_byte());
        if layout.commits < span.end {
            return Ok(Lookup::NotByParts);
        }
        let (mut low, mut high) = (span.start, span.end);
        let mut guesses = Guesses::new(wanted);
        while low < high {
            let pos = guesses.next(low, high);
            let Some(kept) = self.read_id(alloc, folder, pos)? else {
                return Ok(Lookup::NotByParts);
            };
            let there = self.kept_id(pos, kept);
            match wanted.cmp(there) {
                Ordering::Less => {
                    guesses.is_before(there);
                    high = pos;
                }
                Ordering::Equal => return Ok(Lookup::Found(Position(pos))),
                Ordering::Greater => {
                    guesses.is_after(there);
                    low = pos + 1;
                }
            }
        }
        Ok(Lookup::Missing)
    }
}
