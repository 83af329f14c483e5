//! The laws, by their paths.

use gix_commitgraph::law::check::{
    a_check_of_a_graph_calls_on_each_position_once, a_check_of_a_layer_calls_on_each_position_once,
    the_first_fault_stands_above_right_layers,
};
use gix_commitgraph::law::distinct::{
    a_graph_that_keeps_what_is_asked_is_without_fault,
    a_repeated_id_is_named_only_where_that_is_asked, a_scan_of_distinct_ids_is_exact,
    distinct_ids_are_without_fault,
};
use gix_commitgraph::law::edges::each_edge_list_ends_or_runs_out;
use gix_commitgraph::law::graph::{
    a_commit_lies_in_its_layer, a_lookup_in_ordered_layers_is_a_scan,
    a_position_is_a_place_in_its_layer, a_position_lies_in_one_layer,
    layers_are_refused_or_make_a_graph, the_commits_of_layers_add_up,
    the_history_of_a_graph_is_that_of_its_layers, the_history_of_a_graph_says_what_its_records_say,
};
use gix_commitgraph::law::layer::{a_layer_without_fault_is_right, the_test_of_a_name_is_the_rule};
use gix_commitgraph::law::lookup::{a_scan_answers_the_first_position, digits_are_binary_digits};
use gix_commitgraph::law::sound::{
    a_graph_without_fault_is_right, a_lookup_in_a_right_graph_is_a_scan,
    a_right_graph_is_without_fault, the_longest_path_of_a_right_graph_is_its_longest_walk,
    the_parents_of_a_right_graph_are_there,
};
use gix_commitgraph::law::stats::{
    the_parent_counts_of_a_graph_add_up, the_parent_counts_of_a_layer_add_up,
};
use gix_commitgraph::law::walk::{
    cycles_are_at_the_cap, dates_are_right_exactly_where_they_are_greatest,
    generations_fall_along_walks, generations_never_rise_along_walks,
    generations_that_count_walks_are_local, greatest_generation_is_the_longest_walk,
    local_generations_count_walks, right_dates_are_early, right_dates_are_one,
    right_dates_fall_along_walks, right_dates_leave_no_cycle, the_cap_is_this_number,
    walks_over_distinct_ids_are_walks_over_positions,
};
use gix_commitgraph::law::{
    bytes_fall_into_pieces, each_id_has_a_record, each_is_answered, each_is_refused_or_read,
    falling_fans_are_named, files_are_refused_for_their_heads, limits_are_these_numbers,
    positions_are_ordered_by_their_numbers,
};
