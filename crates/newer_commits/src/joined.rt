//! A base with newer commits on top, as a source of commits.

ghost use Rattle.std.specs.Prelude.{◌≡◌, ◌+◌, ◌==◌, if◌then◌else◌, length};
ghost use Rattle.gix_hash_core.specs.declared.kind.Kind.{Kind};
ghost use Rattle.commit_search.specs.Source.{Told};
ghost use Rattle.newer_commits.specs.CommitsOnTop.{CommitsOnTop};
ghost use Rattle.newer_commits.specs.JoinedHistory.{IsListedInJoined, LiesInJoined, joined_with};

use crate::base::Base;
use crate::newer::Newer;
use commit_search::CommitSource;
use graph_format::Position;
use graph_format::parents::{ExtraEdge, ParentEdge};

/// It says what the base says of the commits of the base, and of the newer ones their parents and
/// their generation numbers. The newer ones lie in a layer of their own, on top of all others.
impl<S: Base> CommitSource for Newer<S> {
    type Error = S::Error;

    ghost Known = { S.Known × S.Facts × CommitsOnTop × Kind };

    ghost known = { λ n. (S.known n.base, S.facts n.base, n.commits, n.kind) };

    ghost says = { λ n t. (b : Told) × S.says n.base b
        × (t ≡ joined_with (S.layers (S.facts n.base)) n.commits b) };

    ghost count = { λ k. S.count k.0 + length k.2.commits };

    ghost lies = { λ k p l. LiesInJoined (S.count k.0) (S.lies k.0) (S.layers k.1) p l };

    ghost words = { λ k l. if l == S.layers k.1 then length k.2.words else S.words k.0 l };

    ghost is_listed = { λ k p index.
        IsListedInJoined (S.count k.0) (S.is_listed k.0) k.2 p index };

    ghost may_fail = { λ k e. S.may_fail k.0 e };

    fn num_commits(&self) -> u32 {
        self.base.num_commits() + self.commits.len()
    }

    fn generation_number(&mut self, pos: Position) -> Result<u32, S::Error> {
        self.number_at(pos)
    }

    fn parent_fields(&mut self, pos: Position) -> Result<(ParentEdge, ParentEdge), S::Error> {
        // By their contracts the newer commits are few, and lie above all layers of the base.
        let _newer = self.commits.len();
        let _layers = self.base.num_layers();
        if pos.0 < self.base.num_commits() {
            self.base.parent_fields(pos)
        } else {
            Ok(self.commits.fields_at(pos))
        }
    }

    fn layer_of(&self, pos: Position) -> usize {
        if pos.0 < self.base.num_commits() {
            self.base.layer_of(pos)
        } else {
            self.base.num_layers()
        }
    }

    fn words_of(&self, pos: Position, layer: usize, index: u32) -> u32 {
        let _layers = self.base.num_layers();
        if pos.0 < self.base.num_commits() {
            self.base.words_of(pos, layer, index)
        } else {
            self.commits.num_words()
        }
    }

    fn listed_parent(
        &mut self,
        pos: Position,
        layer: usize,
        index: u32,
    ) -> Result<ExtraEdge, S::Error> {
        // By their contracts the newer commits are few, and lie above all layers of the base.
        let _newer = self.commits.len();
        let _layers = self.base.num_layers();
        if pos.0 < self.base.num_commits() {
            self.base.listed_parent(pos, layer, index)
        } else {
            Ok(self.commits.word_at(index))
        }
    }
}
