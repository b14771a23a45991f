//! A room that is sampled.
use room_sample::Plan;
use room_spec::Spec;
use std::alloc::Global;

/// A room that is sampled by a plan, and the block that says it.
#[derive(Clone, Copy)]
pub(crate) struct Sampled<'a> {
    pub(crate) alloc: Global,
    pub(crate) spec: &'a Spec,
    pub(crate) block: &'a [u8],
    pub(crate) plan: &'a Plan,
}
