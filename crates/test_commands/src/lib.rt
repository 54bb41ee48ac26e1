//! Whole commands over a disk in memory, of which each call fails in turn, and over real files; and builds over keys that change; as tests.
#![tactic(auto)]

#[cfg(test)]
mod buckets;
#[cfg(test)]
mod builds;
#[cfg(test)]
mod calls;
#[cfg(test)]
mod cases;
#[cfg(test)]
mod changed;
#[cfg(test)]
mod commands;
#[cfg(test)]
mod dumps;
#[cfg(test)]
mod equal;
#[cfg(test)]
mod functions;
#[cfg(test)]
mod real_files;
#[cfg(test)]
mod tested;
