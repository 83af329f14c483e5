//! Uses each public item of the crates of the port, from `gix_hash_core` to `graph_commands`: this
//! compiles only where each has its path, its signature, its fields, its variants and its traits.
//!
//! Most functions here call one public function, with arguments of its types in their order, and
//! answer what it answers. Where the call has a condition, so has the function. Where two of its
//! parameters have one type, the function has the clause that tells them apart. A `match` names
//! each variant of an enum and the type of what it holds, and a pattern or a literal each public
//! field of a struct. The module `bounds` has the traits of types, and `missing` what types do not
//! have. One thing has no form here: the text of an error, of which no contract speaks.
#![tactic(auto)]

mod bounds;
mod chunk_core;
mod commands;
mod folder;
mod graph;
mod hash_core;
mod history;
mod layer;
mod missing;
mod vectors;
