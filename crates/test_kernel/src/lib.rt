//! Tests of loops: what no contract says.
#![tactic(auto)]

#[cfg(test)]
mod arrays;
#[cfg(test)]
mod checks;
#[cfg(test)]
mod columns;
#[cfg(test)]
mod computed;
#[cfg(test)]
mod faults;
#[cfg(test)]
mod inputs;
#[cfg(test)]
mod memory;
#[cfg(test)]
mod window;
