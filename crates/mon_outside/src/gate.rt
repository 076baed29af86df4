//! A place that a worker passes before each item that it takes.

/// Where a caller may hold a worker up. It has no meaning for the result.
pub trait Gate {
    /// Passes before the worker's item of this number, counted from 0.
    fn pass(&self, worker: u32, item: u64);
}

/// A gate that is always open.
#[derive(Clone, Copy, Debug, Default)]
pub struct OpenGate;

impl Gate for OpenGate {
    fn pass(&self, _worker: u32, _item: u64) {}
}
