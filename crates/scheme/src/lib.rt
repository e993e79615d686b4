//! Element schemes: how a root is cut into cells and how their faces meet, with the laws that every scheme shows.

#![tactic(auto)]

mod crossing;
mod flat;
mod limit;
mod scheme;

pub use crossing::Crossing;
pub use flat::Flat;
pub use limit::Limit;
pub use scheme::Scheme;
