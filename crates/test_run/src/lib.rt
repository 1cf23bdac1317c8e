//! Tests of running threads: what no contract says.
#![tactic(auto)]

#[cfg(test)]
mod abandon;
#[cfg(test)]
mod alone;
#[cfg(test)]
mod amounts;
#[cfg(test)]
mod closes;
#[cfg(test)]
mod finish;
#[cfg(test)]
mod fixtures;
#[cfg(test)]
mod fuse;
#[cfg(test)]
mod jobs;
#[cfg(test)]
mod meeting;
#[cfg(test)]
mod memory;
#[cfg(test)]
mod readers;
#[cfg(test)]
mod runs;
#[cfg(test)]
mod stops;
#[cfg(test)]
mod threads;
#[cfg(test)]
mod workers;
