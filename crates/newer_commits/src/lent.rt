//! A base that is lent.

ghost use Rattle.std.specs.Prelude.{ℕ};
ghost use Rattle.newer_commits.specs.SameLent.{follow_lent};

use crate::base::Base;
use commit_search::CommitSource;
use gix_hash_core::{ObjectId, oid};
use graph_format::Position;
use graph_format::parents::{ExtraEdge, ParentEdge};

/// A base that is lent, so that newer commits stand on it for a while.
#[derive(Drop)]
pub struct Lent<'b, S: Base> {
    /// The base.
    pub base: &'b mut S,
}

/// It says what the base says.
impl<'b, S: Base> CommitSource for Lent<'b, S> {
    type Error = S::Error;

    ghost Known = { S.Known × ℕ };

    ghost known = { λ s. (S.known s.base.now, s.base.ghost_name) };

    ghost says = { λ s t. S.says s.base.now t };

    ghost count = { λ k. S.count k.0 };

    ghost lies = { λ k p l. S.lies k.0 p l };

    ghost words = { λ k l. S.words k.0 l };

    ghost is_listed = { λ k p index. S.is_listed k.0 p index };

    ghost may_fail = { λ k e. S.may_fail k.0 e };

    fn num_commits(&self) -> u32 {
        self.base.num_commits()
    }

    fn generation_number(&mut self, pos: Position) -> Result<u32, S::Error> {
        self.base.generation_number(pos)
    }

    fn parent_fields(&mut self, pos: Position) -> Result<(ParentEdge, ParentEdge), S::Error> {
        self.base.parent_fields(pos)
    }

    fn layer_of(&self, pos: Position) -> usize {
        self.base.layer_of(pos)
    }

    fn words_of(&self, pos: Position, layer: usize, index: u32) -> u32 {
        self.base.words_of(pos, layer, index)
    }

    fn listed_parent(
        &mut self,
        pos: Position,
        layer: usize,
        index: u32,
    ) -> Result<ExtraEdge, S::Error> {
        self.base.listed_parent(pos, layer, index)
    }
}

/// Its commits are found by their ids as those of the base.
impl<'b, S: Base> Base for Lent<'b, S> {
    ghost Facts = { S.Facts };

    ghost facts = { λ s. S.facts s.base.now };

    ghost finds = { λ f id answer. S.finds f id answer };

    ghost has_id = { λ f p id. S.has_id f p id };

    ghost layers = { λ f. S.layers f };

    ghost follow = { λ one other same. follow_lent S.known S.facts S.follow one.base.now
        other.base.now one.base.ghost_name other.base.ghost_name same };

    fn num_layers(&self) -> usize {
        self.base.num_layers()
    }

    fn position_of(&mut self, id: oid<'_>) -> Result<Option<Position>, S::Error> {
        self.base.position_of(id)
    }

    fn id_at(&mut self, pos: Position) -> Result<ObjectId, S::Error> {
        self.base.id_at(pos)
    }
}
