//! The words of a directive and the lines of a folded scalar, which are slices of the source.

pub use yf_lines::slices::Slices;
