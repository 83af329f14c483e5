//! What files, graphs and iterators do not have: neither `clone` nor `==`.

use gix_commitgraph::file::commit::Parents;
use gix_commitgraph::file::{BaseIds, Commits, File, Ids};
use gix_commitgraph::{Graph, GraphCommits, GraphIds};

/// Methods of every type. A call of one is ambiguous, and does not compile, where the type has a
/// method of this name by `Clone` or `PartialEq` too.
trait Neither {
    fn clone(&self) {}

    fn eq(&self, _other: &Self) {}
}

impl<T> Neither for T {}

fn files(file: &File) {
    file.clone();
    file.eq(file);
}

fn graphs(graph: &Graph) {
    graph.clone();
    graph.eq(graph);
}

fn parents(parents: &Parents<'_>) {
    parents.clone();
    parents.eq(parents);
}

fn ids(ids: &Ids<'_>, base_ids: &BaseIds<'_>, graph_ids: &GraphIds<'_>) {
    ids.clone();
    ids.eq(ids);
    base_ids.clone();
    base_ids.eq(base_ids);
    graph_ids.clone();
    graph_ids.eq(graph_ids);
}

fn commits(commits: &Commits<'_>, graph_commits: &GraphCommits<'_>) {
    commits.clone();
    commits.eq(commits);
    graph_commits.clone();
    graph_commits.eq(graph_commits);
}
