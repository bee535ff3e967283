//! Tests of calls of `aig_core` and `aig_text`, and of `aig_binary`, `aig_convert` and `aig_unroll`,
//! that neither a contract decides nor a run of the program shows. The texts that the program is run
//! on stand in `tests/rows`.
#![tactic(auto)]

#[cfg(test)]
mod binary_files;
#[cfg(test)]
mod calls;
#[cfg(test)]
mod copies;
#[cfg(test)]
mod deltas;
#[cfg(test)]
mod forms;
#[cfg(test)]
mod large;
#[cfg(test)]
mod large_binary;
#[cfg(test)]
mod messages;
#[cfg(test)]
mod orders;
#[cfg(test)]
mod refutations;
#[cfg(test)]
mod unrolled;
