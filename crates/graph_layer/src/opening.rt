//! Opening a layer by the path of its file.

ghost use Rattle.std.specs.Prelude.{◌≡◌, IfOk, IfErr, IsErrOf, string_bytes};
ghost use Rattle.std.specs.Option.{ForSome};
ghost use Rattle.graph_layer.specs.LayerOpening.{bytes_at, layer_of_bytes, layer_at, IsReadError};
ghost use Rattle.graph_layer.specs.LayerOpening.{IsLayerError, LayerWasRead};
ghost use Rattle.graph_folder.specs.Reads.{AreAllOfFile};
ghost use Rattle.graph_format.specs.Layer.{IsLayer};
ghost use Rattle.graph_layer.specs.OpenAnswer.{IsAsExpected, failures_after_opening, result_map};
ghost use Rattle.graph_layer.specs.OpenRefusals.{OutOfMemoryStandsAlone};

mod error;

use crate::file::File;
pub use error::OpenError;
use error::refused_layer;
use graph_folder::folder::{Disk, Folder};
use std::alloc::{AllocError, Global};
use std::rt::Files;

impl File {
    /// Opens the layer whose file stands at the path, which the file keeps.
    ///
    /// # Errors
    ///
    /// The first of these that holds:
    ///
    /// 1. `NotOpened`: the system calls the path a folder, or does not open it.
    /// 2. `Device`: a read of the file failed.
    /// 3. `Layer`: the bytes are refused, as layer 0.
    ///
    /// `OutOfMemory` comes where an allocation failed.
    pub fn at<R: Files>(rt: &R, alloc: Global, path: &str) -> Result<File, OpenError>
        ensures path { IfOk result (λ file. file.path ≡ path.now) }
        ensures given { IfOk result (LayerWasRead (λ _ bytes.
            AreAllOfFile R.File.remaining bytes)) }
        ensures errors { IfErr result (IsLayerError 0) }
        ensures memory { IfErr result OutOfMemoryStandsAlone }
    {
        open_layer(alloc, &mut Disk::new(rt), 0, String::from_str(alloc, path)?)
    }
}

/// The file at the path, as a layer.
pub fn open_layer<T: Folder>(
    alloc: Global,
    folder: &mut T,
    layer: usize,
    path: String,
) -> Result<File, OpenError>
    ensures opens { ForSome (T.tree folder.old) (λ tree.
        IsAsExpected result (layer_at tree layer (string_bytes path))) }
    ensures path { IfOk result (λ file. file.path ≡ string_bytes path) }
    ensures given { IfOk result (LayerWasRead T.gives) }
    ensures tree { T.tree folder.new ≡ T.tree folder.old }
    ensures failures { T.failure_count folder.new
        ≡ failures_after_opening result (T.failure_count folder.old) }
    ensures errors { IfErr result (IsLayerError layer) }
    ensures memory { IfErr result OutOfMemoryStandsAlone }
{
    let bytes = read_file(alloc, folder, path.as_str())?;
    new_layer(alloc, layer, bytes, path)
}

/// The same layer once more: nothing is copied, and both share all that is kept. `AllocError` comes
/// only where 2^63 share it already.
pub fn share_layer(file: &File) -> Result<File, AllocError>
    ensures { IfOk result (λ shared. shared ≡ file.now) }
{
    file.share()
}

/// The bytes of the file at the path.
pub fn read_file<T: Folder>(alloc: Global, folder: &mut T, path: &str) -> Result<Vec<u8>, OpenError>
    ensures opens { ForSome (T.tree folder.old)
        (λ tree. IsAsExpected (result_map (λ bytes. bytes.items) result) (bytes_at tree path.now)) }
    ensures given { IfOk result (λ bytes. T.gives path.now bytes.items) }
    ensures tree { T.tree folder.new ≡ T.tree folder.old }
    ensures failures { T.failure_count folder.new
        ≡ failures_after_opening result (T.failure_count folder.old) }
    ensures errors { IfErr result IsReadError }
    ensures memory { IfErr result OutOfMemoryStandsAlone }
{
    Ok(folder.read(alloc, path)?)
}

/// The layer of a file's bytes.
fn new_layer(alloc: Global, layer: usize, bytes: Vec<u8>, path: String) -> Result<File, OpenError>
    ensures opens { IsAsExpected result (layer_of_bytes layer bytes.items (string_bytes path)) }
    ensures path { IfOk result (λ file. file.path ≡ string_bytes path) }
    ensures spelled { IfOk result (IsLayer bytes.items (string_bytes path)) }
    ensures no_device { ¬ (IsErrOf result OpenError.Device) }
    ensures errors { IfErr result (IsLayerError layer) }
    ensures memory { IfErr result OutOfMemoryStandsAlone }
{
    File::new(alloc, bytes, path).map_err(|error| refused_layer(layer, error))
}
