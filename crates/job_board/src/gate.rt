//! Where a worker passes between its claim of a job and its work on it.

/// What a worker passes before it works a job that it claimed. Nothing rests on what it does: tests
/// use it to see who works what.
pub trait Gate {
    fn enter(&self, job: u32);
}

/// A gate that does nothing.
#[derive(Clone, Copy)]
pub struct OpenGate;

impl Gate for OpenGate {
    fn enter(&self, _job: u32) {}
}
