//! Opening: whether bytes have the written format, and what a layer keeps of them.

ghost use Rattle.std.specs.Prelude.{◌≡◌, string_bytes, None, IfErr, IfOk, MatchResult};
ghost use Rattle.graph_format.specs.Layer.{IsLayer};
ghost use Rattle.graph_format.specs.Layout.{IsLayout};
ghost use Rattle.graph_format.specs.Opened.{MayRefuse};
ghost use Rattle.graph_format.specs.Refusal.{refusal};

use crate::file::{File, Shared};
use bytes::Bytes;
use graph_format::error::FileError;
use graph_format::layout::{Layout, layout_of};
use graph_format::records::decode_records_and_edges;
use std::alloc::{AllocError, Global};
use std::sync::Arc;

impl File {
    /// Opens the layer whose file has these bytes. The path is kept and not opened.
    ///
    /// It is `Ok` for exactly the bytes that have Git's commit-graph format, version 1, memory
    /// permitting. Otherwise the error is the first of its kinds, in their order, whose rule the
    /// bytes break; it drops the bytes and the path. Memory is asked for only where the bytes break
    /// none of the rules, so damaged bytes are never answered with `OutOfMemory`.
    #[tactic(auto, using(graph_format::proofs::AcceptedFileLemmas::accepted_laws))]
    pub fn new(alloc: Global, bytes: Vec<u8>, path: String) -> Result<File, FileError>
        ensures layer { IfOk result (IsLayer bytes.items (string_bytes path)) }
        ensures refusal { MatchResult result (λ _. refusal bytes.items ≡ None)
            (MayRefuse bytes.items) }
    {
        let layout = layout_of(&bytes)?;
        let Ok(bytes) = Bytes::from_vec(bytes) else {
            return Err(FileError::OutOfMemory);
        };
        File::decoded(alloc, bytes, path, layout)
    }

    /// Opens the layer whose file has these bytes, as [`File::new`] does, and answers as it does.
    /// The bytes are lent for ever: they stay where they are, and none is copied.
    #[tactic(auto, using(graph_format::proofs::AcceptedFileLemmas::accepted_laws))]
    pub fn from_static(alloc: Global, bytes: &'static [u8], path: String) -> Result<File, FileError>
        ensures layer { IfOk result (IsLayer bytes.now (string_bytes path)) }
        ensures refusal { MatchResult result (λ _. refusal bytes.now ≡ None)
            (MayRefuse bytes.now) }
    {
        let layout = layout_of(bytes)?;
        File::decoded(alloc, Bytes::from_static(bytes), path, layout)
    }

    /// The layer of bytes that have this layout. The only error is `OutOfMemory`.
    #[tactic(auto, using(graph_format::proofs::AcceptedFileLemmas::accepted_laws))]
    fn decoded(alloc: Global, bytes: Bytes, path: String, layout: Layout) -> Result<File, FileError>
        requires { IsLayout bytes layout }
        ensures layer { IfOk result (IsLayer bytes (string_bytes path)) }
        ensures refused { IfErr result (λ error. error ≡ FileError.OutOfMemory) }
    {
        let Ok((records, extra_edges)) = decode_records_and_edges(alloc, bytes.as_slice(), &layout)
        else {
            return Err(FileError::OutOfMemory);
        };
        let shared = Shared {
            bytes,
            path,
            layout,
            records,
            extra_edges,
        };
        match Arc::new(alloc, shared) {
            Ok(shared) => Ok(File { shared }),
            Err(_) => Err(FileError::OutOfMemory),
        }
    }

    /// The same layer once more, which shares all that this one keeps.
    pub(crate) fn share(&self) -> Result<File, AllocError>
        ensures { IfOk result (λ file. file ≡ self.now) }
    {
        Ok(File {
            shared: Arc::try_clone(&self.shared)?,
        })
    }
}
