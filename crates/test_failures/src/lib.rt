//! Tests of the engine over devices that fail or move few bytes in a call, which no run of the
//! program shows. The texts that the program is run on stand in `tests/rows`.
#![tactic(auto)]

#[cfg(test)]
mod failures;
#[cfg(test)]
mod files;
#[cfg(test)]
mod memory_files;
#[cfg(test)]
mod run;
#[cfg(test)]
mod simulations;
#[cfg(test)]
mod streams;
#[cfg(test)]
mod witnesses;
