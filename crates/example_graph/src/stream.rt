//! The five commits as Git has them.

ghost use Rattle.std.specs.Prelude.{◌∷◌, [], codes};
ghost use Rattle.graph_objects.specs.Stream.{IsStreamOf};
ghost use Rattle.example_graph.specs.FiveCommits.{layer};
ghost use Rattle.example_graph.specs.FiveContents.{stream};

/// What Git writes of the five commits matches what the layer says of them.
pub fn the_commits_match()
    ensures { IsStreamOf (layer (codes "commit-graph") ∷ []) 0 5 stream }
{}
