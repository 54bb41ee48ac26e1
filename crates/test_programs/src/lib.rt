//! The programs beside `cmph`, by their top calls over disks in memory, as tests.
#![tactic(auto)]

#[cfg(test)]
mod equal;
#[cfg(test)]
mod filter;
#[cfg(test)]
mod filter_bytes;
#[cfg(test)]
mod judge;
#[cfg(test)]
mod running;
#[cfg(test)]
mod shards;
#[cfg(test)]
mod shards_bytes;
#[cfg(test)]
mod store;
#[cfg(test)]
mod store_bytes;
