/// Called once for each call, while its region is held. Contracts say nothing of it.
pub trait Gate {
    fn inside(&self, worker: u32, region: u32);
}

/// A gate that does nothing.
#[derive(Clone, Copy)]
pub struct OpenGate;

impl Gate for OpenGate {
    fn inside(&self, _worker: u32, _region: u32) {}
}
