//! A base, or none.

ghost use Rattle.std.specs.Prelude.{◌≡◌, [], None, Option};
ghost use Rattle.std.specs.Option.{MatchOption, option_map, option_map_or};
ghost use Rattle.commit_search.specs.Source.{told_of};
ghost use Rattle.newer_commits.specs.SameKnowledge.{follow_each};

use crate::base::Base;
use commit_search::CommitSource;
use gix_hash_core::{ObjectId, oid};
use graph_format::Position;
use graph_format::parents::{ExtraEdge, ParentEdge};

/// A base, or none: so newer commits can stand on no graph at all, and are all that is known then.
#[derive(Clone, Copy, Debug, Drop)]
pub struct BaseOrNone<B> {
    /// The base.
    pub base: Option<B>,
}

/// It says what the base says; where there is none, that there are no commits and no layers.
impl<B: Base> CommitSource for BaseOrNone<B> {
    type Error = B::Error;

    ghost Known = { Option B.Known };

    ghost known = { λ s. option_map B.known s.base };

    ghost says = { λ s t. MatchOption s.base (t ≡ told_of []) (λ base. B.says base t) };

    ghost count = { λ k. option_map_or B.count k 0 };

    ghost lies = { λ k p l. MatchOption k ⊥ (λ base. B.lies base p l) };

    ghost words = { λ k l. option_map_or (λ base. B.words base l) k 0 };

    ghost is_listed = { λ k p index. MatchOption k ⊥ (λ base. B.is_listed base p index) };

    ghost may_fail = { λ k e. MatchOption k ⊥ (λ base. B.may_fail base e) };

    fn num_commits(&self) -> u32 {
        match &self.base {
            Some(base) => base.num_commits(),
            None => 0,
        }
    }

    fn generation_number(&mut self, pos: Position) -> Result<u32, B::Error> {
        match &mut self.base {
            Some(base) => base.generation_number(pos),
            None => unreachable!(),
        }
    }

    fn parent_fields(&mut self, pos: Position) -> Result<(ParentEdge, ParentEdge), B::Error> {
        match &mut self.base {
            Some(base) => base.parent_fields(pos),
            None => unreachable!(),
        }
    }

    fn layer_of(&self, pos: Position) -> usize {
        match &self.base {
            Some(base) => base.layer_of(pos),
            None => unreachable!(),
        }
    }

    fn words_of(&self, pos: Position, layer: usize, index: u32) -> u32 {
        match &self.base {
            Some(base) => base.words_of(pos, layer, index),
            None => unreachable!(),
        }
    }

    fn listed_parent(
        &mut self,
        pos: Position,
        layer: usize,
        index: u32,
    ) -> Result<ExtraEdge, B::Error> {
        match &mut self.base {
            Some(base) => base.listed_parent(pos, layer, index),
            None => unreachable!(),
        }
    }
}

/// Where there is no base, no id is found in it.
impl<B: Base> Base for BaseOrNone<B> {
    ghost Facts = { Option B.Facts };

    ghost facts = { λ s. option_map B.facts s.base };

    ghost finds = { λ f id answer. MatchOption f (answer ≡ None) (λ base. B.finds base id answer) };

    ghost has_id = { λ f p id. MatchOption f ⊥ (λ base. B.has_id base p id) };

    ghost layers = { λ f. option_map_or B.layers f 0 };

    ghost follow = { λ one other same.
        follow_each B.known B.facts B.follow one.base other.base same };

    fn num_layers(&self) -> usize {
        match &self.base {
            Some(base) => base.num_layers(),
            None => 0,
        }
    }

    fn position_of(&mut self, id: oid<'_>) -> Result<Option<Position>, B::Error> {
        match &mut self.base {
            Some(base) => base.position_of(id),
            None => Ok(None),
        }
    }

    fn id_at(&mut self, pos: Position) -> Result<ObjectId, B::Error> {
        match &mut self.base {
            Some(base) => base.id_at(pos),
            None => unreachable!(),
        }
    }
}
