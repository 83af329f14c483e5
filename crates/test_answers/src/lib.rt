//! Tests of what the commands of `graphtool` answer, each by its function: texts and statuses,
//! reads and writes that fail, and files that are damaged byte by byte.
//!
//! The module `asking` has the commands, and `folders` what they are asked about. `conditions`
//! tries what refuses the bytes of a file, one condition after another.
#![tactic(auto)]

#[cfg(test)]
mod asking;
#[cfg(test)]
mod checking;
#[cfg(test)]
mod conditions;
#[cfg(test)]
mod damaged;
#[cfg(test)]
mod failing;
#[cfg(test)]
mod finding;
#[cfg(test)]
mod folders;
#[cfg(test)]
mod layers;
#[cfg(test)]
mod listing;
#[cfg(test)]
mod table;
#[cfg(test)]
mod walks;
