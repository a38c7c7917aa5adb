//! Who does a piece of work.

use crate::workers::Workers;
use std::alloc::Global;

/// Who does a piece of work: threads of the handle, so many workers, each through the gate, with memory of the allocator.
#[derive(Drop)]
pub struct Crew<'a, R, G> {
    pub rt: &'a R,
    pub alloc: Global,
    pub workers: Workers,
    pub gate: &'a G,
}
