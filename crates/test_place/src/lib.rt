//! Tests of batches and of directives on a place: what no contract says.
#![tactic(auto)]

#[cfg(test)]
mod batch;
#[cfg(test)]
mod closing;
#[cfg(test)]
mod copies;
#[cfg(test)]
mod fixtures;
#[cfg(test)]
mod memory;
#[cfg(test)]
mod plans;
#[cfg(test)]
mod queues;
#[cfg(test)]
mod scarce_awaits;
#[cfg(test)]
mod tables;
#[cfg(test)]
mod values;
