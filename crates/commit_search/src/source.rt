//! Where a search along parents reads commits from.

ghost use Rattle.std.specs.Prelude.{◌≡◌, ◌<◌, ℕ, IfOk, IfErr, length};
ghost use Rattle.graph_walks.specs.History.{generation_at};
ghost use Rattle.commit_search.specs.Source.{Told, AreFieldsRead, IsWordRead};

use graph_format::Position;
use graph_format::parents::{ExtraEdge, ParentEdge};
use std::alloc::AllocError;

/// Commits by position, with their generation numbers and parents, in layers: a graph in memory, or
/// one of which parts are read. The lowest layer is layer 0.
///
/// A source may be wrong: its generation numbers may be any, and its parents may go round in
/// circles. But it names no commit that it has not, and no word of an extra edge list that is not
/// there; where it would have to, the call is an error.
pub trait CommitSource {
    /// Why a read failed.
    type Error: From<AllocError> + Drop;

    /// What a contract knows of a source, which no call changes.
    ghost Known: { Type 0 };

    /// That of this source.
    ghost known: { Self → Known };

    /// The source says this: all that was read of it so far agrees with it.
    ghost says: { Self → Told → Type 0 };

    /// How many commits there are.
    ghost count: { Known → ℕ };

    /// The commit at a position lies in a layer.
    ghost lies: { Known → ℕ → ℕ → Type 0 };

    /// How many words the extra edge list of a layer has.
    ghost words: { Known → ℕ → ℕ };

    /// The word of an index stands where the parents of the commit at a position are listed.
    ghost is_listed: { Known → ℕ → ℕ → Type 0 };

    /// The error is one that a call may answer.
    ghost may_fail: { Known → Self.Error → Type 0 };

    /// How many commits there are.
    fn num_commits(&self) -> u32
        ensures count { result ≡ count (known self.now) }
        ensures told { (t : Told) → says self.now t → length t.history ≡ result };

    /// The generation number of the commit at a position.
    ///
    /// # Errors
    ///
    /// The read failed.
    fn generation_number(&mut self, pos: Position) -> Result<u32, Self::Error>
        requires { pos.0 < count (known self.old) }
        ensures known { known self.new ≡ known self.old }
        ensures kept { (t : Told) → says self.new t → says self.old t }
        ensures number { IfOk result (λ number. (t : Told) → says self.new t
            → number ≡ generation_at t.history pos.0) }
        ensures failed { IfErr result (may_fail (known self.old)) };

    /// What both parent fields of the commit at a position say ("Commit Data").
    ///
    /// # Errors
    ///
    /// The read failed, or a field names no commit and no word of the list.
    fn parent_fields(&mut self, pos: Position) -> Result<(ParentEdge, ParentEdge), Self::Error>
        requires { pos.0 < count (known self.old) }
        ensures known { known self.new ≡ known self.old }
        ensures kept { (t : Told) → says self.new t → says self.old t }
        ensures fields { IfOk result (let k = known self.old in
            AreFieldsRead (count k) (is_listed k) (lies k) (says self.new) pos.0) }
        ensures failed { IfErr result (may_fail (known self.old)) };

    /// The layer in which the commit at a position lies.
    fn layer_of(&self, pos: Position) -> usize
        requires { pos.0 < count (known self.now) }
        ensures { lies (known self.now) pos.0 result };

    /// How many words the extra edge list of the layer has in which the commit at a position lies,
    /// where the word of this index is listed for it.
    fn words_of(&self, pos: Position, layer: usize, index: u32) -> u32
        requires pos { pos.0 < count (known self.now) }
        requires lies { lies (known self.now) pos.0 layer }
        requires listed { is_listed (known self.now) pos.0 index }
        ensures words { result ≡ words (known self.now) layer }
        ensures there { index < result };

    /// What the word of this index says there ("Extra Edge List").
    ///
    /// # Errors
    ///
    /// The read failed, or the word names no commit, or it is not the last of its commit and no
    /// other follows.
    fn listed_parent(
        &mut self,
        pos: Position,
        layer: usize,
        index: u32,
    ) -> Result<ExtraEdge, Self::Error>
        requires pos { pos.0 < count (known self.old) }
        requires lies { lies (known self.old) pos.0 layer }
        requires listed { is_listed (known self.old) pos.0 index }
        ensures known { known self.new ≡ known self.old }
        ensures kept { (t : Told) → says self.new t → says self.old t }
        ensures word { IfOk result (let k = known self.old in
            IsWordRead (count k) (words k layer) (is_listed k) (says self.new) pos.0 layer index) }
        ensures failed { IfErr result (may_fail (known self.old)) };
}

/// A source that says the same however much of it is read, as a graph in memory does.
pub trait SteadySource: CommitSource {
    /// What it says is determined by what no call changes.
    ghost steady: { (one other : Self) (t : Told) → Self.known one ≡ Self.known other
        → Self.says one t → Self.says other t };
}
