//! Sources of commits that can be found by their ids.

ghost use Rattle.std.specs.Prelude.{◌≡◌, ◌<◌, ℕ, List, Option, IfErr, IfOk, IfSome};
ghost use Rattle.gix_hash_core.specs.Oid.{oid_bytes};
ghost use Rattle.gix_commitgraph.specs.GraphLookup.{position_number};
ghost use Rattle.commit_search.specs.Source.{Told};

use commit_search::CommitSource;
use gix_hash_core::{ObjectId, oid};
use graph_format::Position;

/// A source whose commits can be found by their ids, so that newer ones can be added on top.
pub trait Base: CommitSource {
    /// What a contract knows of the ids and the layers of a source.
    ghost Facts: { Type 0 };

    /// That of this source.
    ghost facts: { Self → Facts };

    /// The lookup of an id may answer this.
    ghost finds: { Facts → List ℕ → Option ℕ → Type 0 };

    /// The commit at a position may have this id.
    ghost has_id: { Facts → ℕ → List ℕ → Type 0 };

    /// How many layers there are.
    ghost layers: { Facts → ℕ };

    /// How many layers there are: each commit lies in one below this number.
    fn num_layers(&self) -> usize
        ensures count { result ≡ layers (facts self.now) }
        ensures below { (p l : ℕ) → Self.lies (Self.known self.now) p l → l < result };

    /// The position of the commit with an id.
    ///
    /// # Errors
    ///
    /// A read failed.
    fn position_of(&mut self, id: oid<'_>) -> Result<Option<Position>, Self::Error>
        ensures known { Self.known self.new ≡ Self.known self.old }
        ensures kept { (t : Told) → Self.says self.new t → Self.says self.old t }
        ensures found { IfOk result (λ answer.
            finds (facts self.old) (oid_bytes id.entry) (position_number answer)) }
        ensures within { IfOk result (λ answer.
            IfSome answer (λ pos. pos.0 < Self.count (Self.known self.old))) }
        ensures failed { IfErr result (Self.may_fail (Self.known self.old)) };

    /// The id of the commit at a position.
    ///
    /// # Errors
    ///
    /// A read failed.
    fn id_at(&mut self, pos: Position) -> Result<ObjectId, Self::Error>
        requires { pos.0 < Self.count (Self.known self.old) }
        ensures known { Self.known self.new ≡ Self.known self.old }
        ensures kept { (t : Told) → Self.says self.new t → Self.says self.old t }
        ensures id { IfOk result (has_id (facts self.old) pos.0) }
        ensures failed { IfErr result (Self.may_fail (Self.known self.old)) };

    /// It is the same as long as all that is known of the source is.
    ghost follow: { (one other : Self) → Self.CommitSource.known one ≡ Self.CommitSource.known other
        → facts one ≡ facts other };
}
