//! The version of the library.

ghost use Rattle.std.specs.Prelude.{◌≡◌};

/// The version, as `CG_VERSION` of its header has it.
pub fn cg_version() -> u32
    ensures { result ≡ 100 }
{
    100
}
