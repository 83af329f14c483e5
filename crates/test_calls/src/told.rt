//! What is written of a call.

use anyhow::Result;
use std::fmt::Debug;

/// Writes a line right before a call, and an empty one.
pub fn begin(rt: &HostRuntime) -> Result<()> {
    Ok(println!(rt; "begun\n")?)
}

/// Writes what was answered as a line. A proof has much to go over where a text is made, so that is
/// done here alone.
pub fn tell<T: Debug>(rt: &HostRuntime, answer: &T) -> Result<()> {
    Ok(println!(rt; "{answer:?}")?)
}
