//! The library on examples: planting, meshes, joints, the answers of schemes, and what is printed.

#![tactic(auto)]

#[cfg(test)]
mod crossing;
#[cfg(test)]
mod meshes;
mod named;
#[cfg(test)]
mod planting;
mod relabelled;
#[cfg(test)]
mod schemes;
#[cfg(test)]
mod told;

pub use named::Named;
pub use relabelled::Relabelled;
