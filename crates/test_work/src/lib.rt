//! Tests of the memory, of items that hosts record, of loops that are out, of batches that no directive leads to, and of what is dropped: what no contract says.
#![tactic(auto)]

#[cfg(test)]
mod allowed;
#[cfg(test)]
mod drops;
#[cfg(test)]
mod items;
#[cfg(test)]
mod jobs;
#[cfg(test)]
mod memory;
#[cfg(test)]
mod runs;
#[cfg(test)]
mod stuck;
#[cfg(test)]
mod words;
