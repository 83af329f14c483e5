//! Changed-path filters. (gitformat-commit-graph, "Bloom Filter Index" and "Bloom Filter Data".)

ghost use Rattle.std.specs.Prelude.{◌≡◌, ◌+◌, ◌*◌, ◌++◌, [], OnOk, length, option_map, unwrap_or};
ghost use Rattle.graph_encoder.specs.Plan.{IsPlan};
ghost use Rattle.graph_encoder.specs.Written.{filter_data, filter_index};

use crate::push::push_words;
use crate::view::PlanView;
use std::alloc::AllocError;

/// The bytes of one number, and of the end of one filter.
const WORD_LEN: usize = 4;

/// The bytes of the three numbers that stand before the filters.
const NUMBERS_LEN: usize = 12;

/// The three numbers that stand before the filters of a layer.
#[derive(Clone, Copy, Debug, PartialEq, Eq)]
pub struct FilterNumbers {
    /// The version of the hash.
    pub version: u32,
    /// How many probes a path has.
    pub hashes: u32,
    /// How many bits a filter has at least for each path that it was made of.
    pub bits_per_entry: u32,
}

/// The filters of a layer's commits. They may be anything that the format has room for: ends need
/// not ascend, and the numbers need not be right.
#[derive(Debug, Drop)]
pub struct PlanFilters {
    /// What stands before the filters.
    pub numbers: FilterNumbers,
    /// For each commit where its filter ends, counted from the first filter.
    pub ends: Vec<u32>,
    /// The bytes of the filters, one after another.
    pub bytes: Vec<u8>,
}

/// The size of "Bloom Filter Index", which is there where the plan has filters.
pub(crate) fn filter_index_size<P: PlanView>(plan: &P) -> Option<usize>
    requires { IsPlan (P.as_plan plan.now) }
    ensures { result ≡ option_map (λ filters. 4 * length filters.ends.items)
        (P.as_plan plan.now).filters }
{
    match plan.filters() {
        Some(filters) => Some(WORD_LEN * filters.ends.len()),
        None => None,
    }
}

/// The size of "Bloom Filter Data", which is there where the plan has filters.
pub(crate) fn filter_data_size<P: PlanView>(plan: &P) -> Option<usize>
    requires { IsPlan (P.as_plan plan.now) }
    ensures { result ≡ option_map (λ filters. 12 + length filters.bytes.items)
        (P.as_plan plan.now).filters }
{
    match plan.filters() {
        Some(filters) => Some(NUMBERS_LEN + filters.bytes.len()),
        None => None,
    }
}

/// Adds both chunks, if the plan has filters.
pub(crate) fn push_filters<P: PlanView>(file: &mut Vec<u8>, plan: &P) -> Result<(), AllocError>
    ensures { let filters = (P.as_plan plan.now).filters in
        OnOk result (file.new.items ≡ file.old.items
        ++ unwrap_or (option_map (λ f. filter_index f ++ filter_data f) filters) []) }
{
    match plan.filters() {
        Some(filters) => push_both(file, filters),
        None => Ok(()),
    }
}

/// Adds the index of these filters, and their data.
fn push_both(file: &mut Vec<u8>, filters: &PlanFilters) -> Result<(), AllocError>
    ensures { OnOk result (file.new.items ≡ file.old.items
        ++ (filter_index filters.now ++ filter_data filters.now)) }
{
    push_words(file, &filters.ends)?;
    let FilterNumbers {
        version,
        hashes,
        bits_per_entry,
    } = filters.numbers;
    push_words(file, &[version, hashes, bits_per_entry])?;
    file.extend_from_slice(&filters.bytes)
}
