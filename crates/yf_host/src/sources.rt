//! The files and the inputs of the program.

/// The inputs that the program reads, and the files that it rewrites.
#[derive(Drop)]
pub struct Sources<I, S> {
    /// The inputs: files by their names, and standard input.
    pub inputs: I,
    /// The files that `fmt --write` rewrites.
    pub files: S,
}
