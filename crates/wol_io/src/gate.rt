// The gate that a run passes before each request.

/// What is called before each request of a run. A gate gives nothing and changes nothing of the run; one that holds its
/// caller back sets the order in which threads go on.
pub trait Gate {
    /// Called before the request with this number, counted from 0 in the order of the trace.
    fn pass(&self, request: u64);
}

/// The gate of the program: it holds nobody back.
#[derive(Clone, Copy, Debug, Default, PartialEq, Eq)]
pub struct NoGate;

impl Gate for NoGate {
    fn pass(&self, _request: u64) {}
}
