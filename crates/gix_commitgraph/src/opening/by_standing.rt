//! What stands at a path decides how it is opened, whatever is made of a file and of a chain.

ghost use Rattle.std.specs.Prelude.{◌≡◌};
ghost use Rattle.gix_commitgraph.specs.ByStanding.{InfoComes, PathComes};

use crate::opening::path::{info_chain_path, info_file_path};
use crate::opening::{OpenError, Standing, is_settled, stands_at};
use graph_folder::folder::Folder;
use std::alloc::Global;

/// Makes something of the files of a graph: of a single file, or of a chain.
pub trait Opener {
    ghost use Rattle.std.specs.Prelude.{◌≡◌, ℕ, List, Option, Result};
    ghost use Rattle.graph_folder.specs.Tree.{Tree};
    ghost use Rattle.graph_folder.specs.declared.folder.Part.{Part};
    ghost use Rattle.graph_layer.specs.declared.opening.error.OpenError.{OpenError as error};

    /// What is made of them.
    type Opened: Drop;

    /// What a contract knows of an opener, which no call changes.
    ghost Known: { Type 0 };

    /// That of this opener.
    ghost known: { Self → Known };

    /// The opener may be asked.
    ghost is_ready: { Self → Type 0 };

    /// This may come of the file at a path, in a folder with this tree, where that is known, of
    /// whose reads this may be given, of whole files and of parts, while the count of failed reads
    /// goes from the first number to the second, and the opener from the first value to the second.
    ghost of_file: { Known → Option Tree → (List ℕ → List ℕ → Type 0)
        → (List ℕ → ℕ → Part → Type 0) → List ℕ → ℕ → ℕ
        → Self → Self → Result Self.Opened error → Type 0 };

    /// The same of the chain folder at a path.
    ghost of_chain: { Known → Option Tree → (List ℕ → List ℕ → Type 0)
        → (List ℕ → ℕ → Part → Type 0) → List ℕ → ℕ → ℕ
        → Self → Self → Result Self.Opened error → Type 0 };

    /// Opens the file at the path.
    fn file<T: Folder>(
        &mut self,
        alloc: Global,
        folder: &mut T,
        path: &str,
    ) -> Result<Self::Opened, OpenError>
        requires { is_ready self.old }
        ensures comes { of_file (known self.old) (T.tree folder.old) T.gives T.gives_part path.now
            (T.failure_count folder.old) (T.failure_count folder.new) self.old self.new result }
        ensures known { known self.new ≡ known self.old }
        ensures ready { is_ready self.new }
        ensures tree { T.tree folder.new ≡ T.tree folder.old };

    /// Opens the chain folder at the path.
    fn chain<T: Folder>(
        &mut self,
        alloc: Global,
        folder: &mut T,
        path: &str,
    ) -> Result<Self::Opened, OpenError>
        requires { is_ready self.old }
        ensures comes { of_chain (known self.old) (T.tree folder.old) T.gives T.gives_part path.now
            (T.failure_count folder.old) (T.failure_count folder.new) self.old self.new result }
        ensures known { known self.new ≡ known self.old }
        ensures ready { is_ready self.new }
        ensures tree { T.tree folder.new ≡ T.tree folder.old };
}

/// Opens what stands at the path: a file, a folder in which a file `commit-graph-chain` stands as a
/// chain folder, and any other folder as an info folder, as [`open_info_by`] does.
///
/// # Errors
///
/// `NothingFound` where neither a file nor a folder stands at the path, and else those of the
/// opener. `OutOfMemory` comes where an allocation failed.
pub fn open_by<T: Folder, O: Opener>(
    alloc: Global,
    folder: &mut T,
    path: &str,
    opener: &mut O,
) -> Result<O::Opened, OpenError>
    requires { O.is_ready opener.old }
    ensures comes { PathComes (T.tree folder.old)
        (O.of_file (O.known opener.old) (T.tree folder.old) T.gives T.gives_part)
        (O.of_chain (O.known opener.old) (T.tree folder.old) T.gives T.gives_part) path.now
        (T.failure_count folder.old) (T.failure_count folder.new) opener.old opener.new result }
    ensures known { O.known opener.new ≡ O.known opener.old }
    ensures ready { O.is_ready opener.new }
    ensures tree { T.tree folder.new ≡ T.tree folder.old }
{
    match stands_at(alloc, folder, path)? {
        Standing::File => opener.file(alloc, folder, path),
        Standing::ChainDir => opener.chain(alloc, folder, path),
        Standing::InfoDir => open_info_by(alloc, folder, path, opener),
        Standing::Nothing => Err(OpenError::NothingFound),
    }
}

/// Opens the info folder at the path: the file `commit-graph` in it, or where that is refused the
/// chain folder `commit-graphs` in it.
///
/// # Errors
///
/// Those of the opener for the chain folder. Where the opener has no memory for the file, the chain
/// is not tried, and the answer is `OutOfMemory`, as where an allocation failed here.
pub fn open_info_by<T: Folder, O: Opener>(
    alloc: Global,
    folder: &mut T,
    path: &str,
    opener: &mut O,
) -> Result<O::Opened, OpenError>
    requires { O.is_ready opener.old }
    ensures comes { InfoComes
        (O.of_file (O.known opener.old) (T.tree folder.old) T.gives T.gives_part)
        (O.of_chain (O.known opener.old) (T.tree folder.old) T.gives T.gives_part) path.now
        (T.failure_count folder.old) (T.failure_count folder.new) opener.old opener.new result }
    ensures known { O.known opener.new ≡ O.known opener.old }
    ensures ready { O.is_ready opener.new }
    ensures tree { T.tree folder.new ≡ T.tree folder.old }
{
    let file = info_file_path(alloc, path)?;
    let chain = info_chain_path(alloc, path)?;
    let answer = opener.file(alloc, folder, file.as_str());
    if is_settled(&answer) {
        return answer;
    }
    opener.chain(alloc, folder, chain.as_str())
}
