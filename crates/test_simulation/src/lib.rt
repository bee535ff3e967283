//! Tests of the simulator's calls, of verdicts on lassos and of the three values, where neither a
//! contract decides nor a run of the program shows what comes. The texts that the program is run on
//! stand in `tests/rows`.
#![tactic(auto)]

#[cfg(test)]
mod batches;
#[cfg(test)]
mod large;
#[cfg(test)]
mod lassos;
#[cfg(test)]
mod steps;
#[cfg(test)]
mod values;
#[cfg(test)]
mod waves;
#[cfg(test)]
mod witness_files;
#[cfg(test)]
mod witnesses;
