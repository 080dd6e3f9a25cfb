//! The form of each node of a reading, before anything is printed.

pub mod collection;
pub mod comments_before;
pub mod decide;
pub mod ended;
pub mod forms;
pub mod kept;
pub mod keys;
pub(crate) mod layout_context;
pub mod measure;
pub mod measure_flows;
pub mod measures;
pub(crate) mod narrow;
