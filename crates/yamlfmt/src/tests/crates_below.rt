//! Calls of the crates below that no run of the program tests. The texts hold more than the part that is read.

mod block_scalars;
mod comments;
mod explained;
mod lines;
mod mistakes;
mod nodes;
mod props;
mod readings;
mod scalars;
