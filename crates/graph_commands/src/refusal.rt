//! The line that says why a command was refused.

ghost use Rattle.std.specs.Prelude.{◌≡◌, Some};

use crate::input_error_numbers::{id_number, read_number};
use crate::status::Status;
use gix_commitgraph::FileError;
use gix_commitgraph::opening::OpenError;
use gix_commitgraph::verify::{LayerFault, VerifyError};
use gix_hash_core::IdError;
use graph_ancestors::NoFault;
use graph_folder::folder::ReadError;
use graph_format::error_numbers::{
    chunk_number, commit_number, file_number, graph_number, parent_number,
};
use std::fmt;

/// Why a command was refused. It is displayed as its line, without the line's end.
#[derive(Debug, Drop)]
pub enum Refusal {
    /// The text that is to be an id is not one.
    Id(IdError),
    /// The input could not be read, or memory ran out before it was.
    Read(ReadError),
    /// The input is no layer, or decoding it ran out of memory.
    File(FileError),
    /// No graph was opened by the path.
    Open(OpenError),
    /// The graph fails its check, or the check ran out of memory.
    Verify(VerifyError<NoFault>),
    /// The search of a query ran out of memory.
    Walk,
}

impl From<IdError> for Refusal {
    ghost use Rattle.graph_commands.specs.declared.refusal.Refusal.TheVariants.{Id};

    ghost from_gives = { λ error refusal. refusal ≡ Id error };

    fn from(error: IdError) -> Refusal {
        Refusal::Id(error)
    }
}

impl From<ReadError> for Refusal {
    ghost use Rattle.graph_commands.specs.declared.refusal.Refusal.TheVariants.{Read};

    ghost from_gives = { λ error refusal. refusal ≡ Read error };

    fn from(error: ReadError) -> Refusal {
        Refusal::Read(error)
    }
}

impl From<FileError> for Refusal {
    ghost use Rattle.graph_commands.specs.declared.refusal.Refusal.TheVariants.{File};

    ghost from_gives = { λ error refusal. refusal ≡ File error };

    fn from(error: FileError) -> Refusal {
        Refusal::File(error)
    }
}

impl From<OpenError> for Refusal {
    ghost use Rattle.graph_commands.specs.declared.refusal.Refusal.TheVariants.{Open};

    ghost from_gives = { λ error refusal. refusal ≡ Open error };

    fn from(error: OpenError) -> Refusal {
        Refusal::Open(error)
    }
}

impl From<VerifyError<NoFault>> for Refusal {
    ghost use Rattle.graph_commands.specs.declared.refusal.Refusal.TheVariants.{Verify};

    ghost from_gives = { λ error refusal. refusal ≡ Verify error };

    fn from(error: VerifyError<NoFault>) -> Refusal {
        Refusal::Verify(error)
    }
}

impl Refusal {
    ghost use Rattle.graph_commands.specs.RefusalLines.{refusal_status};

    /// The exit status of the command.
    pub fn status(&self) -> u8
        ensures { result ≡ refusal_status self.now }
    {
        match self {
            Refusal::Id(_) => Status::Failed as u8,
            _ => Status::No as u8,
        }
    }
}

impl fmt::Display for Refusal {
    ghost use Rattle.graph_commands.specs.RefusalLines.{refusal_text};

    ghost output = { λ refusal. Some (refusal_text refusal) };

    fn fmt<W: fmt::Write>(&self, f: &mut fmt::Formatter<W>) -> fmt::Result {
        match self {
            Refusal::Id(error) => write!(f, "refused id {}", id_number(*error)),
            Refusal::Read(error) => write!(f, "refused read {}", read_number(error)),
            Refusal::File(error) => write!(f, "refused {}", FileText(error)),
            Refusal::Open(error) => write!(f, "refused open {}", OpenText(error)),
            Refusal::Verify(error) => write!(f, "refused verify {}", VerifyText(error)),
            Refusal::Walk => f.write_str("refused walk"),
        }
    }
}

/// A file that is no layer: what stands after `refused`, and after the number of a layer.
#[derive(Clone, Copy)]
struct FileText<'a>(&'a FileError);

impl fmt::Display for FileText<'_> {
    ghost use Rattle.graph_commands.specs.RefusalLines.{file_text};

    ghost output = { λ text. Some (file_text text.0.now) };

    fn fmt<W: fmt::Write>(&self, f: &mut fmt::Formatter<W>) -> fmt::Result {
        match self.0 {
            FileError::Chunks(error) => write!(f, "file 5 chunk {}", chunk_number(error)),
            error => write!(f, "file {}", file_number(error)),
        }
    }
}

/// A path that opens no graph: what stands after `refused open`.
#[derive(Clone, Copy)]
struct OpenText<'a>(&'a OpenError);

impl fmt::Display for OpenText<'_> {
    ghost use Rattle.graph_commands.specs.RefusalLines.{open_text};

    ghost output = { λ text. Some (open_text text.0.now) };

    fn fmt<W: fmt::Write>(&self, f: &mut fmt::Formatter<W>) -> fmt::Result {
        match self.0 {
            OpenError::NothingFound => f.write_str("1"),
            OpenError::NotOpened => f.write_str("2"),
            OpenError::Device => f.write_str("3"),
            OpenError::ChainNotText { line } => write!(f, "4 line {line}"),
            OpenError::Layer { layer, error } => {
                write!(f, "5 layer {layer} {}", FileText(error))
            }
            OpenError::Graph(error) => write!(f, "6 graph {}", graph_number(error)),
            OpenError::OutOfMemory => f.write_str("7"),
        }
    }
}

/// A graph that fails its check: what stands after `refused verify`.
#[derive(Clone, Copy)]
struct VerifyText<'a>(&'a VerifyError<NoFault>);

impl fmt::Display for VerifyText<'_> {
    ghost use Rattle.graph_commands.specs.RefusalLines.{verify_error_text};

    ghost output = { λ text. Some (verify_error_text text.0.now) };

    fn fmt<W: fmt::Write>(&self, f: &mut fmt::Formatter<W>) -> fmt::Result {
        match self.0 {
            VerifyError::TooManyFiles => f.write_str("1"),
            VerifyError::BaseCount { layer } => write!(f, "2 layer {layer}"),
            VerifyError::BaseId { layer, index } => write!(f, "3 layer {layer} index {index}"),
            VerifyError::Layer { layer, fault } => {
                write!(f, "4 layer {layer} fault {}", FaultText(*fault))
            }
            VerifyError::Commit { pos, fault } => {
                let fault = commit_number(*fault);
                write!(f, "5 position {} fault {fault}", pos.0)
            }
            VerifyError::Parent { pos, error } => {
                let error = parent_number(*error);
                write!(f, "6 position {} error {error}", pos.0)
            }
            VerifyError::ParentOutOfRange { pos, parent } => {
                write!(f, "7 position {} parent {}", pos.0, parent.0)
            }
            VerifyError::Generation { pos, expected } => {
                write!(f, "8 position {} expected {expected}", pos.0)
            }
            VerifyError::Processor { pos, .. } => write!(f, "9 position {}", pos.0),
            VerifyError::OutOfMemory => f.write_str("10"),
            VerifyError::DuplicateId { pos, earlier } => {
                write!(f, "11 position {} earlier {}", pos.0, earlier.0)
            }
        }
    }
}

/// What is wrong with a layer as a whole: its number, and the byte of the fan.
#[derive(Clone, Copy)]
struct FaultText(LayerFault);

impl fmt::Display for FaultText {
    ghost use Rattle.graph_commands.specs.RefusalLines.{fault_text};

    ghost output = { λ text. Some (fault_text text.0) };

    fn fmt<W: fmt::Write>(&self, f: &mut fmt::Formatter<W>) -> fmt::Result {
        match self.0 {
            LayerFault::Checksum => f.write_str("1"),
            LayerFault::FileName => f.write_str("2"),
            LayerFault::Fan { byte } => write!(f, "3 byte {byte}"),
        }
    }
}
