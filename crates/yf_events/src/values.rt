//! Lists of values: those of yf_lines.

pub use yf_lines::values::Values;
