//! Asks the changed-path filters of a graph. The words are the files of its layers, the lowest
//! first.
//!
//! Each line of standard input is a path, its bytes in hexadecimal. For each path a line is written
//! with the answer of each commit's filter, in the order of their positions.

ghost use Rattle.std.specs.Prelude.{◌≤◌, length};

use anyhow::Result;
use changed_paths::key::PathKey;
use gix_commitgraph::{File, Graph, Position};
use graph_chunks::filters::GraphFilters;
use std::alloc::Global;
use std::io::{self, BufRead, BufReader, BufWriter, Write};

/// Asks the filters of the layers that these words name, after the first two.
pub fn ask(rt: &HostRuntime, alloc: Global, words: &[String]) -> Result<()> {
    let mut layers = Vec::new(alloc);
    for word in words.iter().skip(2) {
        layers.push(File::at(rt, alloc, word.as_str())?)?;
    }
    let graph = Graph::new(alloc, layers)?;
    let filters = GraphFilters::of_graph(alloc, &graph)?;
    let mut output = BufWriter::new(alloc, io::writer(rt))?;
    for line in BufReader::new(alloc, rt.reader())?.lines(alloc) {
        let path = hex::decode(alloc, line?)?;
        write_answers(&filters, graph.num_commits(), &path, &mut output)?;
    }
    output.flush()?;
    Ok(())
}

/// Writes what the filters of so many commits say of a path.
fn write_answers<W: Write>(
    filters: &GraphFilters<'_>,
    commits: u32,
    path: &[u8],
    output: &mut W,
) -> Result<()>
    requires { commits ≤ length filters.now.filters }
{
    let key = PathKey::new(path);
    for pos in 0..commits {
        writeln!(output, "{:?}", filters.probe(Position(pos), &key))?;
    }
    Ok(())
}
