//! A search along the extra edge lists.

ghost use Rattle.std.specs.Prelude.{◌≡◌, ◌⊎◌, ◌<◌, ◌≤◌, ℕ, length, OnOk, IfErr, Contains};
ghost use Rattle.std.specs.Prelude.{alloc_error};
ghost use Rattle.graph_walks.specs.History.{generation_at};
ghost use Rattle.commit_search.specs.EdgeLists.{named_from};
ghost use Rattle.commit_search.specs.Queue.{commit_in, IsQueued};
ghost use Rattle.commit_search.specs.Search.{queued_by, IsSearching, AreRead, GoesOn};
ghost use Rattle.commit_search.specs.Source.{Told, IsListTrue};

use crate::edges::parent_of;
use crate::marks::Marks;
use crate::search::Search;
use crate::source::CommitSource;
use graph_format::parents::ExtraEdge;

impl<M: Marks> Search<M> {
    /// Goes over the words of the extra edge list in whose layer the commit at a place lies, from
    /// this index on to the last parent of the commit, or to a word that was gone over before.
    ///
    /// Few commits have such a list. This stays a call of its own, so that the others pay nothing
    /// for it.
    #[inline(never)]
    pub(crate) fn visit_list<S: CommitSource>(
        &mut self,
        commits: &mut S,
        index: u32,
        place: u32,
    ) -> Result<(), S::Error>
        requires search { IsSearching (S.count (S.known commits.old)) (S.says commits.old)
            self.old }
        requires read { AreRead (S.says commits.old) self.old }
        requires place { place < length (queued_by self.old) }
        requires listed { S.is_listed (S.known commits.old) (commit_in (queued_by self.old) place)
            index }
        requires told { (t : Told) → S.says commits.old t → (l : ℕ)
            → S.lies (S.known commits.old) (commit_in (queued_by self.old) place) l
            → IsListTrue t (commit_in (queued_by self.old) place) l index }
        ensures known { S.known commits.new ≡ S.known commits.old }
        ensures kept { (t : Told) → S.says commits.new t → S.says commits.old t }
        ensures search { OnOk result
            (IsSearching (S.count (S.known commits.old)) (S.says commits.new) self.new) }
        ensures read { OnOk result (AreRead (S.says commits.new) self.new) }
        ensures goes_on { OnOk result (GoesOn self.old self.new place) }
        ensures named { OnOk result ((t : Told) (q : ℕ) → S.says commits.new t
            → ((l : ℕ) → S.lies (S.known commits.old) (commit_in (queued_by self.old) place) l
            → Contains (named_from (t.lists l) index) q)
            → self.old.least ≤ generation_at t.history q → IsQueued (queued_by self.new) q) }
        ensures failed { IfErr result (λ e. S.may_fail (S.known commits.old) e
            ⊎ S.Error.from_gives alloc_error e) }
    {
        let pos = self.commit_at(place);
        let layer = commits.layer_of(pos);
        let count = commits.words_of(pos, layer, index);
        self.grow_words(layer, count)?;
        let mut next = index;
        while !self.is_word_marked(layer, next) {
            let word = commits.listed_parent(pos, layer, next)?;
            self.enqueue(commits, parent_of(word), place)?;
            self.mark_word(layer, next)?;
            match word {
                ExtraEdge::Internal(_) => next += 1,
                ExtraEdge::Last(_) => return Ok(()),
            }
        }
        Ok(())
    }
}
