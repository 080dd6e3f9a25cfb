//! Directives (YAML 1.2.2, section 6.8).

use crate::slices::Slices;
use crate::values::Values;

/// A directive (l-directive, production 82).
#[derive(Drop)]
pub struct Directive<'a> {
    /// The byte offset of the `%`.
    pub offset: usize,
    /// Its name, without the `%`, and its parameters.
    pub words: Slices<'a>,
}

/// Directives in order.
pub type Directives<'a> = Values<Directive<'a>>;
