//! What the program works with.
use io_text::Text;
use std::alloc::Global;

/// Where the program's threads, inputs and memory come from.
#[derive(Drop)]
pub struct System<'a, H, I> {
    pub threads: &'a H,
    pub inputs: &'a I,
    pub alloc: Global,
}

/// What is said with an answer, but not in it.
#[derive(Drop)]
pub struct Aside<P> {
    /// What there is to say of the inputs.
    pub notes: Text,
    /// Who is shown how far the answer is.
    pub progress: P,
}
