//! A script that is fed as it is written: each of its entries is answered before more is waited for.
#![tactic(auto)]

mod entries;
mod live;
mod serving;

pub use entries::MAX_ENTRY;
pub use live::MAX_ROOMS;
pub use serving::serve;
