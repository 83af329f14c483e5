//! A graph of several layers.

use crate::file::File;
use std::marker::Model;

/// A commit-graph: layers of one kind of hash, from the lowest on, each of which may name commits
/// of the layers before it. A contract sees it as the list of its layers.
#[derive(Drop)]
pub struct Graph {
    pub(crate) files: Vec<File>,
    /// For each file, how many commits the files before it have together.
    pub(crate) starts: Vec<u32>,
}

impl Model for Graph {
    ghost use Rattle.std.specs.Prelude.{List};
    ghost use Rattle.graph_format.specs.Layer.{Layer};
    ghost use Rattle.gix_commitgraph.specs.LayerStarts.{IsGraphWithStarts};

    ghost Value = { List Layer };

    ghost view = { λ a. a.files.items };

    ghost invariant = { λ a. IsGraphWithStarts a.files.items a.starts.items };
}
