//! Laws of the format: what its definitions say of all bytes. Each function does nothing, and its
//! contract is the law.

pub mod edges;
pub mod lookup;
pub mod name;

ghost use Rattle.std.specs.Prelude.{◌≡◌, ℕ, List, length};
ghost use Rattle.std.specs.Ordering.{nat_cmp};
ghost use Rattle.graph_format.specs.Format.{chunk_range_of};
ghost use Rattle.graph_format.specs.Head.{HaveSameHead};
ghost use Rattle.graph_format.specs.FormatLaws.{IsDecided, NamesFirstFall, FallIntoPieces};
ghost use Rattle.graph_format.specs.Layer.{Layer, IsOpened};
ghost use Rattle.graph_format.specs.Opened.{IsAnswered};
ghost use Rattle.graph_format.specs.Refusal.{refusal};
ghost use Rattle.graph_format.specs.declared.Position.{Position};
ghost use Rattle.graph_format.specs.declared.TheConstants.{MAX_COMMITS, GENERATION_NUMBER_INFINITY};
ghost use Rattle.graph_format.specs.declared.file.Position.{Position as LayerPosition};
ghost use Rattle.graph_walks.specs.declared.TheConstants.{GENERATION_NUMBER_MAX};

/// For all bytes and each path: the bytes are refused, and are then a file of no layer, or they are
/// not, and are then a file of exactly one.
#[tactic(auto, using(crate::proofs::DecidedFileLemmas::decided))]
pub fn each_is_refused_or_read()
    ensures { (bytes path : List ℕ) → IsDecided bytes path }
{}

/// For all bytes and each path: what opening answers where there is memory is a layer exactly where
/// the bytes are a file of that layer, and an error exactly where that is their refusal.
#[tactic(auto, using(crate::proofs::DecidedFileLemmas::answered))]
pub fn each_is_answered()
    ensures { (bytes path : List ℕ) → IsAnswered bytes path }
{}

/// A layer that was opened has one record for each of its ids.
#[tactic(auto, using(crate::proofs::LayerHistoryLemmas::opened_is_paired))]
pub fn each_id_has_a_record()
    ensures { (layer : Layer) → IsOpened layer → length layer.records ≡ length layer.ids }
{}

/// Files of the same size, with the same header, table of chunks and fan, are refused alike, and
/// their chunks lie in the same places.
#[tactic(auto, using(crate::proofs::HeadLemmas::head_laws))]
pub fn files_are_refused_for_their_heads()
    ensures refusal { (bytes other : List ℕ) → HaveSameHead bytes other
        → refusal bytes ≡ refusal other }
    ensures places { (bytes other id : List ℕ) → HaveSameHead bytes other
        → chunk_range_of bytes id ≡ chunk_range_of other id }
{}

/// A fan is refused for the first byte at which it falls, and a fan that falls nowhere is not.
pub fn falling_fans_are_named()
    ensures { (fan : List ℕ) → NamesFirstFall fan }
{}

/// The pieces into which bytes fall, as ids, records and words do, have the same size, and fewer
/// bytes than a piece has are left over at the end.
pub fn bytes_fall_into_pieces()
    ensures { (size : ℕ) (bytes : List ℕ) → FallIntoPieces size bytes }
{}

/// The limits that the definitions name are these numbers of Git's format.
pub fn limits_are_these_numbers()
    // 0x70000000, the value that says "no parent", is one more
    ensures most_commits { MAX_COMMITS ≡ 1879048191 }

    // 30 bits of a commit's record
    ensures greatest_generation { GENERATION_NUMBER_MAX ≡ 1073741823 }

    // 32 bits
    ensures no_generation { GENERATION_NUMBER_INFINITY ≡ 4294967295 }
{}

/// Positions of a graph, and those of a layer, are ordered as their numbers are. That the orders
/// are total, that two positions are equal exactly where neither comes first, and that equal
/// positions hash alike is proved with the impls of `Ord`, `Eq` and `Hash` themselves.
pub fn positions_are_ordered_by_their_numbers()
    ensures of_a_graph { (one other : Position)
        → ⟦<crate::Position as Ord>⟧.cmp one other ≡ nat_cmp one.0 other.0 }
    ensures of_a_layer { (one other : LayerPosition)
        → ⟦<crate::file::Position as Ord>⟧.cmp one other ≡ nat_cmp one.0 other.0 }
{}
