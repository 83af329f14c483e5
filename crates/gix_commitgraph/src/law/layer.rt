//! Laws of the check of a layer.

pub use graph_format::law::name::the_test_of_a_name_is_the_rule;
pub use graph_layer::law::a_layer_without_fault_is_right;
