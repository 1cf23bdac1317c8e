//! Tests of worlds of events: what neither a contract nor a report says.
#![tactic(auto)]

#[cfg(test)]
mod checks;
#[cfg(test)]
mod closing;
#[cfg(test)]
mod hosts;
#[cfg(test)]
mod memory;
#[cfg(test)]
mod others;
#[cfg(test)]
mod races;
#[cfg(test)]
mod stuck;
#[cfg(test)]
mod worlds;
