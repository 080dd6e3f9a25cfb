//! The loop of an editor server: it reads messages of the base protocol of the Language Server Protocol 3.17, and
//! writes what `yf_server` sends.
//!
//! It handles the messages in order, and ends at `exit`, at the end of the input, or at a fault. It knows no method.
#![tactic(auto)]

pub mod ended;
pub mod handle;
pub mod receive;
pub mod send;
pub mod serve;
