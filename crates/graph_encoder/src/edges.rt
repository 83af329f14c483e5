//! The fields of a record that name parents, and the words of the extra edge list.
//! (gitformat-commit-graph, "Commit Data" and "Extra Edge List".)

ghost use Rattle.std.specs.Prelude.{◌≡◌, ◌+◌, ◌<◌, ◌++◌, ◌↔◌, IsTrue, OnOk, length, All};
ghost use Rattle.graph_encoder.specs.ExtraEdges.{extra_words, all_extra_words, top_bit, no_parent};
ghost use Rattle.graph_encoder.specs.ExtraEdges.{first_field, second_field};
ghost use Rattle.graph_encoder.specs.Plan.{IsPlan};
ghost use Rattle.graph_encoder.specs.Written.{words_bytes};

use crate::push::push_word;
use crate::view::PlanView;
use graph_format::parents::{NO_PARENT, TOP_BIT};
use std::alloc::AllocError;

/// A file has fewer extra words than this.
const EXTRA_WORDS_LIMIT: usize = 0x80000000;

/// How many extra words a commit with these parents has.
#[tactic(auto, using(crate::proofs::ExtraWords::counted))]
pub(crate) fn extra_words_len(parents: &[u32]) -> usize
    ensures { result ≡ length (extra_words parents.now) }
{
    if parents.len() > 2 {
        parents.len() - 1
    } else {
        0
    }
}

/// How many extra words these commits have together.
pub(crate) fn count_extra_words<P: PlanView>(plan: &P) -> usize
    requires { length (all_extra_words (P.as_plan plan.now).commits.items) < top_bit }
    ensures { result ≡ length (all_extra_words (P.as_plan plan.now).commits.items) }
{
    let mut words = 0;
    for place in 0..plan.commit_count() {
        words += extra_words_len(plan.row(place).parents);
    }
    words
}

/// Whether the index of each extra word fits in a field beside the top bit: there are fewer of them
/// than 2^31. A commit with more than two parents has one for each from the second on.
pub fn has_few_extra_words<P: PlanView>(plan: &P) -> bool
    ensures { IsTrue result
        ↔ (length (all_extra_words (P.as_plan plan.now).commits.items) < top_bit) }
{
    let mut words = 0;
    for place in 0..plan.commit_count() {
        words += extra_words_len(plan.row(place).parents);
        if words >= EXTRA_WORDS_LIMIT {
            return false;
        }
    }
    true
}

/// The two parent fields of a record, where the commit's extra words begin at this index.
pub(crate) fn parent_fields(parents: &[u32], index: u32) -> (u32, u32)
    requires { index < top_bit }
    ensures first { result.0 ≡ first_field parents.now }
    ensures second { result.1 ≡ second_field index parents.now }
{
    match parents {
        [] => (NO_PARENT, NO_PARENT),
        [first] => (*first, NO_PARENT),
        [first, second] => (*first, *second),
        [first, ..] => (*first, TOP_BIT + index),
    }
}

/// Adds the extra words of a commit with these parents.
pub(crate) fn push_extra_words(file: &mut Vec<u8>, parents: &[u32]) -> Result<(), AllocError>
    requires { All (λ parent. parent < no_parent) parents.now }
    ensures { OnOk result (file.new.items
        ≡ file.old.items ++ words_bytes (extra_words parents.now)) }
{
    if parents.len() > 2 {
        let last = parents.len() - 1;
        for parent in &parents[1..last] {
            push_word(file, *parent)?;
        }
        push_word(file, TOP_BIT + parents[last])?;
    }
    Ok(())
}

/// Adds the extra words of these commits.
pub(crate) fn push_edges<P: PlanView>(file: &mut Vec<u8>, plan: &P) -> Result<(), AllocError>
    requires { IsPlan (P.as_plan plan.now) }
    ensures { OnOk result (file.new.items
        ≡ file.old.items ++ words_bytes (all_extra_words (P.as_plan plan.now).commits.items)) }
{
    for place in 0..plan.commit_count() {
        push_extra_words(file, plan.row(place).parents)?;
    }
    Ok(())
}
