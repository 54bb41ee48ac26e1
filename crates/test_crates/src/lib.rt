//! Worked examples of the lower crates as tests: rows from outside, and what their public calls show.
#![tactic(auto)]

#[cfg(test)]
mod bits;
#[cfg(test)]
mod buffers;
#[cfg(test)]
mod candidates;
#[cfg(test)]
mod dumps;
#[cfg(test)]
mod equal;
#[cfg(test)]
mod files;
#[cfg(test)]
mod graph;
#[cfg(test)]
mod keys;
#[cfg(test)]
mod lookup2;
#[cfg(test)]
mod memory;
#[cfg(test)]
mod peeling;
#[cfg(test)]
mod ranks;
#[cfg(test)]
mod spills;
