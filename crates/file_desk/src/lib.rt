//! The desk over files and the standard streams.
#![tactic(auto)]

mod begun;
mod files;
mod lines;
mod parts;
mod pouring;
mod wire;
mod writing;

pub use begun::BegunOnDisk;
pub use files::FileDesk;
pub use wire::FileWire;
