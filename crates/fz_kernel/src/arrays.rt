//! The relations of the builtins over the elements of arrays.
mod different;
mod element;
mod extremes;
mod sums;
mod truths;

pub use different::{all_elements_different, numbers_of, stands_from};
pub use element::{bool_element, int_element, int_element_at, set_element};
pub use extremes::{maximum, minimum};
pub use sums::{sum_of_products, sum_where_true};
pub use truths::{all_true, any_false, any_true, odd_number_true};
