//! Published digests.

ghost use Rattle.std.specs.Prelude.{◌≡◌, codes};
ghost use Rattle.gix_hash_core.specs.Digest.{digest_of};
ghost use Rattle.gix_hash_core.specs.declared.kind.Kind.TheVariants.{Sha1, Sha256};
ghost use Rattle.example_graph.specs.HexadecimalText.{hex};

/// The digests of the empty message and of `abc`, as NIST's examples for FIPS 180-4 have them.
pub fn published_digests()
    ensures empty_sha1 { digest_of Sha1 (codes "")
        ≡ hex (codes "da39a3ee5e6b4b0d3255bfef95601890afd80709") }
    ensures abc_sha1 { digest_of Sha1 (codes "abc")
        ≡ hex (codes "a9993e364706816aba3e25717850c26c9cd0d89d") }
    ensures empty_sha256 { digest_of Sha256 (codes "")
        ≡ hex (codes "e3b0c44298fc1c149afbf4c8996fb92427ae41e4649b934ca495991b7852b855") }
    ensures abc_sha256 { digest_of Sha256 (codes "abc")
        ≡ hex (codes "ba7816bf8f01cfea414140de5dae2223b00361a396177a9cb410ff61f20015ad") }
{}
