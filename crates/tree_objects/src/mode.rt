//! Modes.

ghost use Rattle.std.specs.Prelude.{◌≡◌, ◌<◌, ◌%◌, ◌^◌, ◌↔◌, length, IsTrue};
ghost use Rattle.std.specs.List.{AllPass};
ghost use Rattle.tree_objects.specs.Mode as spec;

/// What an entry is.
#[derive(Clone, Copy, Debug, PartialEq, Eq)]
pub enum EntryKind {
    /// Another tree.
    Directory,
    /// A file.
    File,
    /// A file that may be run.
    Executable,
    /// A symbolic link.
    Link,
    /// A commit of another repository, or a mode that Git does not write.
    Submodule,
}

/// Whether all bytes are octal digits.
pub(crate) fn are_octal(digits: &[u8]) -> bool
    ensures { IsTrue result ↔ AllPass spec.is_octal digits.now }
{
    digits.iter().all(|byte| b'0' <= *byte && *byte <= b'7')
}

/// The lower sixteen bits of the number that octal digits spell.
#[tactic(auto, using(crate::proofs::ModeLemmas::octal_laws))]
pub(crate) fn lower_bits(digits: &[u8]) -> u16
    requires { AllPass spec.is_octal digits.now }
    ensures { result ≡ spec.octal digits.now % 65536 }
{
    let mut mode = 0u16;
    for byte in digits {
        mode = mode % 8192 * 8 + (*byte - b'0') as u16;
    }
    mode
}

/// The kind of entry that a mode with these lower bits makes.
#[tactic(auto, unfolding(crate::specs::Mode::kind_by_mode))]
pub(crate) fn kind_by_mode(mode: u16) -> EntryKind
    ensures { result ≡ spec.kind_by_mode mode }
{
    match mode / 4096 {
        8 => {
            if mode / 64 % 2 == 1 {
                EntryKind::Executable
            } else {
                EntryKind::File
            }
        }
        10 => EntryKind::Link,
        4 => EntryKind::Directory,
        _ => EntryKind::Submodule,
    }
}
