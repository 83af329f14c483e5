//! One layer of a commit-graph.

mod access;
pub mod commit;
mod compare;
mod faults;
mod init;
mod lookup;
mod parents;
pub mod verify;

pub use access::{BaseIds, Commits, Ids};
use bytes::Bytes;
pub use commit::Commit;
pub use graph_format::file::Position;
use graph_format::layout::Layout;
use graph_format::records::Records;
use std::fmt;
use std::marker::Model;
use std::sync::Arc;

/// One layer of a commit-graph: the bytes of a file that has the written format, what its records
/// and its extra edge list say, and the path that came with them. A contract sees it as the decoded
/// layer.
#[derive(Drop)]
pub struct File {
    shared: Arc<Shared>,
}

/// What a layer keeps, once for all that share it.
#[derive(Drop)]
struct Shared {
    // Owned, or lent for ever. With a `&'static [u8]` here each signature with a `File` would name
    // `'static`, and no proof is made of one that also has a closure with a lifetime in its bound.
    bytes: Bytes,
    path: String,
    layout: Layout,
    records: Records,
    extra_edges: Option<Vec<u32>>,
}

impl Model for File {
    ghost use Rattle.std.specs.Prelude.{string_bytes};
    ghost use Rattle.graph_format.specs.Layer.{Layer, decoded_layer};

    ghost Value = { Layer };

    ghost use Rattle.graph_layer.specs.FileState.{IsFileState};

    ghost view = { λ a. let shared = a.shared.value in
        decoded_layer shared.bytes (string_bytes shared.path) };

    ghost invariant = { IsFileState };
}

/// The path alone, as `File("P")`, where P is the debug text of the path, with its own quotes: the
/// path `a` gives `File(""a"")`, under `{:#?}` too.
impl fmt::Debug for File {
    fn fmt<W: fmt::Write>(&self, f: &mut fmt::Formatter<W>) -> fmt::Result {
        write!(f, "File(\"{:?}\")", self.path())
    }
}
