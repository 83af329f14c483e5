//! What is wrong with a layer as a whole.

ghost use Rattle.std.specs.Prelude.{◌≡◌, ◌==◌, ◌^◌, ◌<◌, ℕ, if◌then◌else◌, option_map, Some, None};
ghost use Rattle.std.specs.Prelude.{count_by, slice_index, length};
ghost use Rattle.gix_chunk_core.specs.FirstFault.{first_below};
ghost use Rattle.gix_hash_core.specs.Hexadecimal.{spells_id};
ghost use Rattle.gix_hash_core.specs.Oid.{oid_bytes};
ghost use Rattle.graph_format.specs.NameRule.{is_name, name_of, is_chain_name, hash_text};
ghost use Rattle.graph_format.specs.NameRule.{is_named_right};
ghost use Rattle.graph_format.specs.Faults.{wrong_fan, layer_fault};

use crate::file::{File, Position};
use gix_hash_core::{ObjectId, oid};
use graph_format::fault::LayerFault;

impl File {
    /// The first thing that is wrong with the layer as a whole: its checksum ("TRAILER"), the name
    /// of its file ("Commit-Graphs Chains" of Git's commit-graph design), or its fan ("OID
    /// Fanout").
    pub(crate) fn layer_fault(&self) -> Option<LayerFault>
        ensures { result ≡ layer_fault self.now }
    {
        if self.verify_checksum().is_err() {
            return Some(LayerFault::Checksum);
        }
        if !self.is_named_right() {
            return Some(LayerFault::FileName);
        }
        self.wrong_byte().map(|byte| LayerFault::Fan { byte })
    }

    /// Whether the file is named after its checksum, if it is named as a layer of a chain.
    fn is_named_right(&self) -> bool
        ensures { result ≡ is_named_right self.now.path self.now.checksum }
    {
        match file_name(self.path()).and_then(hash_text) {
            Some(text) => spells(text, self.checksum()),
            None => true,
        }
    }

    /// The least byte for which the fan does not have the number of ids whose first byte is at most
    /// that.
    fn wrong_byte(&self) -> Option<u8>
        ensures { option_map LayerFault.Fan result ≡ first_below (wrong_fan self.now) 256 }
    {
        let mut ids = 0;
        for (byte, count) in self.first_bytes().iter().enumerate() {
            ids += *count;
            if self.fan_number(byte as u8) != ids {
                return Some(byte as u8);
            }
        }
        None
    }

    /// How many ids have each first byte. The ids may stand in any order.
    fn first_bytes(&self) -> [u32; 256]
        ensures counts { (byte : ℕ) → byte < 256 → slice_index result byte
            ≡ count_by (λ id. slice_index id 0 == byte) self.now.ids }
        ensures few { length self.now.ids < 2 ^ 32 }
    {
        let mut counts = [0; 256];
        for pos in 0..self.num_commits() {
            counts[self.id_at(Position(pos)).first_byte() as usize] += 1;
        }
        counts
    }
}

/// Whether a part of a path between slashes is a name.
fn is_name(part: &str) -> bool
    ensures { result ≡ is_name part.now }
{
    !part.is_empty() && part != "."
}

/// The last name in a path.
fn file_name(path: &str) -> Option<&str>
    ensures { option_map (λ name. name.now) result ≡ name_of path.now }
{
    path.split('/').filter(|part| is_name(part)).last()
}

/// The text between `graph-` and `.graph` in a name that has both.
fn hash_text(name: &str) -> Option<&str>
    ensures { option_map (λ text. text.now) result
        ≡ (if is_chain_name name.now then Some (hash_text name.now) else None) }
{
    name.strip_prefix("graph-")?.strip_suffix(".graph")
}

/// Whether a text spells an id, with digits of either case.
fn spells(text: &str, id: oid<'_>) -> bool
    ensures { result ≡ spells_id text.now (oid_bytes id.entry) }
{
    match ObjectId::from_hex(text.as_bytes()) {
        Ok(spelled) => spelled.as_oid() == id,
        Err(_) => false,
    }
}
