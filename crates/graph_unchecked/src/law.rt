//! What the answers say of a graph that is right.

ghost use Rattle.std.specs.Prelude.{◌≡◌, ℕ, Bool, List, Ok, Option, Vec};
ghost use Rattle.std.specs.Global.{Global};
ghost use Rattle.answers.specs.declared.answer.Answer.{Answer};
ghost use Rattle.answers.specs.declared.comparison.IdComparison.{IdComparison};
ghost use Rattle.graph_folder.specs.Tree.{Tree};
ghost use Rattle.graph_format.specs.Layer.{Layer};
ghost use Rattle.gix_commitgraph.specs.Sound.{Sound};
ghost use Rattle.graph_parts.specs.PathOpening.{opened_at};
ghost use Rattle.graph_unchecked.specs.RightAnswers.{IsIdComparisonOf, IsScannedAmong};
ghost use Rattle.graph_unchecked.specs.RightAnswers.{IsScannedBetween, IsShortestWalkOfIds};
ghost use Rattle.graph_unchecked.specs.RightAnswers.{IsToldExactly};
ghost use Rattle.graph_unchecked.specs.Unchecked.{HasNoWrongDate, IsAnswerAt, IsComparedUnchecked};
ghost use Rattle.graph_unchecked.specs.Unchecked.{IsFoundAmong, IsFoundBetween, IsToldUnchecked};
ghost use Rattle.graph_unchecked.specs.Unchecked.{IsWalkUnchecked};

use gix_commitgraph::law::sound::a_lookup_in_a_right_graph_is_a_scan;

/// Where the graph at the path is right, each answer is that of a scan of all ids and of a search
/// in the checked graph. So are merge bases where none of its corrected dates is wrong.
pub fn answers_about_a_right_graph_are_exact()
    ensures told { (tree : Tree) (path first second : List ℕ) (layers : List Layer)
        (answer : Answer Bool) → opened_at tree path ≡ Ok layers → Sound layers
        → IsAnswerAt tree path (IsFoundBetween IsToldUnchecked first second) answer
        → IsScannedBetween IsToldExactly first second layers answer }
    ensures walk { (tree : Tree) (path first second : List ℕ) (layers : List Layer)
        (answer : Answer (Option (Vec (List ℕ) Global)))
        → opened_at tree path ≡ Ok layers → Sound layers
        → IsAnswerAt tree path (IsFoundBetween IsWalkUnchecked first second) answer
        → IsScannedBetween IsShortestWalkOfIds first second layers answer }
    ensures compared { (tree : Tree) (path : List ℕ) (ids : List (List ℕ)) (layers : List Layer)
        (answer : Answer (IdComparison (Vec (List ℕ) Global)))
        → opened_at tree path ≡ Ok layers → Sound layers → HasNoWrongDate layers
        → IsAnswerAt tree path (IsFoundAmong IsComparedUnchecked ids) answer
        → IsScannedAmong IsIdComparisonOf ids layers answer }
{
    a_lookup_in_a_right_graph_is_a_scan();
}
