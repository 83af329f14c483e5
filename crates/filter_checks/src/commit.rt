//! The filter of one commit against its trees.

ghost use Rattle.std.specs.Prelude.{◌≡◌, ◌<◌, IfErr, OnOk, Some, length};
ghost use Rattle.std.specs.Prelude.{option_map};
ghost use Rattle.gix_hash_core.specs.Oid.{oid_bytes};
ghost use Rattle.gix_commitgraph.specs.Graph.{total};
ghost use Rattle.gix_commitgraph.specs.Sound.{Sound};
ghost use Rattle.tree_changes.specs.Stands.{World};
ghost use Rattle.filter_checks.specs.RightFilters.{IsComputedAt, IsRightAt, HasAllTouched};
ghost use Rattle.filter_checks.specs.RightFilters.{root_tree_at, parent_tree_at};
ghost use Rattle.filter_checks.specs.Refused.{HasClearBitAt, IsFilterRefusal, IsRefusalAt};
ghost use Rattle.filter_checks.specs.Refused.{IsLackOf};

use crate::lack::{first_absent, may_lack};
use crate::refusal::FilterRefusal;
use gix_commitgraph::law::graph::the_history_of_a_graph_says_what_its_records_say;
use gix_commitgraph::law::sound::the_parents_of_a_right_graph_are_there;
use gix_commitgraph::{Graph, Position};
use gix_hash_core::oid;
use graph_chunks::filters::GraphFilters;
use std::alloc::Global;
use tree_changes::{ChangesInTurn, Limits, Refusal, TreeSource};

/// Whether the filter of a commit is right.
pub(crate) fn check_commit<S: TreeSource>(
    alloc: Global,
    graph: &Graph,
    filters: &GraphFilters<'_>,
    pos: Position,
    source: &mut S,
    limits: Limits,
) -> Result<(), FilterRefusal<S::Error>>
    requires sound { Sound graph.now }
    requires within { pos.0 < total graph.now }
    requires filters { length filters.now.filters ≡ total graph.now }
    ensures kind { S.kind_is source.new ≡ S.kind_is source.old }
    ensures kept { (world : World) → S.says source.new world → S.says source.old world }
    ensures right { OnOk result ((world : World) → S.says source.new world
        → IsRightAt world graph.now filters.now pos.0) }
    ensures needed { IfErr result (λ _. HasClearBitAt filters.now pos.0) }
    ensures refused { IfErr result (λ why. (world : World) → S.says source.new world
        → IsRefusalAt (S.has_refused source.new) limits world graph.now filters.now pos.0 why) }
{
    if !may_lack(filters, pos) {
        return Ok(());
    }
    let old = parent_tree(graph, pos);
    let new = root_tree(graph, pos);
    check_touched(alloc, filters, pos, source, old, new, limits)
}

/// The id of the root tree of a commit.
pub(crate) fn root_tree(graph: &Graph, pos: Position) -> oid<'_>
    requires { pos.0 < total graph.now }
    ensures { root_tree_at graph.now pos.0 ≡ Some (oid_bytes result) }
{
    graph.commit_at(pos).root_tree_id()
}

/// The id of the root tree of the first parent of a commit, where it has a parent.
pub(crate) fn parent_tree(graph: &Graph, pos: Position) -> Option<oid<'_>>
    requires sound { Sound graph.now }
    requires within { pos.0 < total graph.now }
    ensures { parent_tree_at graph.now pos.0 ≡ option_map oid_bytes result }
{
    the_history_of_a_graph_says_what_its_records_say();
    the_parents_of_a_right_graph_are_there();
    prove!(pos.0 < graph.num_commits());
    let parent = graph.commit_at(pos).parent1().unwrap()?;
    Some(root_tree(graph, parent))
}

/// Whether the filter of a commit, which was computed, answers each path as possible that is
/// touched from one tree to another.
fn check_touched<S: TreeSource>(
    alloc: Global,
    filters: &GraphFilters<'_>,
    pos: Position,
    source: &mut S,
    old: Option<oid<'_>>,
    new: oid<'_>,
    limits: Limits,
) -> Result<(), FilterRefusal<S::Error>>
    requires within { pos.0 < length filters.now.filters }
    requires computed { IsComputedAt filters.now pos.0 }
    ensures kind { S.kind_is source.new ≡ S.kind_is source.old }
    ensures kept { (world : World) → S.says source.new world → S.says source.old world }
    ensures right { OnOk result ((world : World) → S.says source.new world
        → HasAllTouched world (option_map oid_bytes old.entry) (Some (oid_bytes new.entry))
        filters.now pos.0) }
    ensures refused { IfErr result (λ why. (world : World) → S.says source.new world
        → IsFilterRefusal (S.has_refused source.new) limits world
        (option_map oid_bytes old.entry) (Some (oid_bytes new.entry)) filters.now pos.0 why) }
{
    let mut changes = match ChangesInTurn::new(alloc, source, old, new, limits) {
        Ok(changes) => changes,
        Err(refusal) => return Err(FilterRefusal::Trees(refusal)),
    };
    let mut count = 0;
    loop {
        match changes.next(alloc, source) {
            Ok(true) => {}
            Ok(false) => return Ok(()),
            Err(refusal) => return Err(FilterRefusal::Trees(refusal)),
        }
        if count >= limits.paths {
            return Err(FilterRefusal::Trees(Refusal::TooMany));
        }
        count += 1;
        let path = changes.path();
        if let Some(len) = first_absent(filters, pos, path) {
            return Err(lack(alloc, &path[..len]));
        }
    }
}

/// The refusal of a filter that lacks a path.
fn lack<E: Drop>(alloc: Global, path: &[u8]) -> FilterRefusal<E>
    ensures { IsLackOf path.now result }
{
    match Vec::from_slice(alloc, path) {
        Ok(path) => FilterRefusal::Lacks(path),
        Err(_) => FilterRefusal::Trees(Refusal::OutOfMemory),
    }
}
