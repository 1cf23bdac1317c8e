//! Tests of configurations, faults, short lists, owned values, rows of cells, chains, their indices and present tables: what no contract says.
#![tactic(auto)]

#[cfg(test)]
mod cells;
#[cfg(test)]
mod chain;
#[cfg(test)]
mod config;
#[cfg(test)]
mod draft;
#[cfg(test)]
mod fault;
#[cfg(test)]
mod few;
#[cfg(test)]
mod fixtures;
#[cfg(test)]
mod indexed;
#[cfg(test)]
mod notes;
#[cfg(test)]
mod owned;
#[cfg(test)]
mod plain;
#[cfg(test)]
mod table;
