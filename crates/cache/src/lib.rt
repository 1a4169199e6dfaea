// Duplicate records of packets, and the cache of the last of them.
#![tactic(auto)]

mod record;
mod ring;

pub use record::PayloadCache;
pub use ring::{Added, Cache, CacheAnswer, CacheNew};
