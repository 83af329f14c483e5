//! How Git makes filters beside those of a graph.

ghost use Rattle.std.specs.Prelude.{◌≡◌};
ghost use Rattle.path_checks.specs.GitSettings.{bits_in, bits_of, git_settings};

use changed_paths::filters::HashVersion;
use gix_commitgraph::{File, Graph};
use graph_chunks::filters::GraphFilters;
use graph_format::integers::word_at;
use path_filters::Settings;

/// How many bytes the three numbers have that stand before the filters of a layer.
const HEADER_LEN: usize = 12;

/// For how many paths Git makes a filter at most.
const MOST_PATHS: u32 = 512;

/// How Git makes filters beside those of a graph: as the lowest layer says that has filters.
pub(crate) fn git_settings(graph: &Graph, filters: &GraphFilters<'_>) -> Settings
    ensures { result ≡ git_settings filters.now.settings graph.now }
{
    match filters.settings() {
        Some(own) => Settings {
            version: own.version,
            bits: bits_of(graph).unwrap_or(10),
            hashes: own.hashes,
            most: MOST_PATHS,
        },
        None => Settings {
            version: HashVersion::One,
            bits: 10,
            hashes: 7,
            most: MOST_PATHS,
        },
    }
}

/// How many bits for each path the filters of the lowest layer have that has filters.
fn bits_of(graph: &Graph) -> Option<u32>
    ensures { result ≡ bits_of graph.now }
{
    for file in graph.layers() {
        if let Some(bits) = bits_in(file) {
            return Some(bits);
        }
    }
    None
}

/// How many bits for each path the filters of a layer have, if it has filters.
fn bits_in(file: &File) -> Option<u32>
    ensures { result ≡ bits_in file.now }
{
    match (file.chunk(*b"BIDX"), file.chunk(*b"BDAT")) {
        (Some(_), Some(body)) if body.len() >= HEADER_LEN => Some(word_at(body, 8)),
        _ => None,
    }
}
