//! Tests of queues between threads: what no contract says.
#![tactic(auto)]

#[cfg(test)]
mod batches;
#[cfg(test)]
mod ends;
#[cfg(test)]
mod memory;
#[cfg(test)]
mod threads;
#[cfg(test)]
mod words;
