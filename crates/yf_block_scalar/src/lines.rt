//! The lines of a block scalar as slices of the source, without their indentation and breaks: from the first one after
//! the header to the last content line. An empty line is an empty slice.

pub use yf_lines::slices::Slices as Lines;
