//! Tests of libraries that the program does not use yet, and of some that it uses. The crate has no other code.
//!
//! They are not in the crate `yamlfmt`, so the first build of the program doesn't prove the libraries that it does not
//! use.
#![tactic(auto)]

#[cfg(test)]
mod tests;
