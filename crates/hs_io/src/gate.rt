//! What is done while a shared pointer is held.
use hs_types::CallerId;

/// Is called while a caller holds a shared pointer. A test sees by it who is inside at the same time; it changes no answer.
pub trait Gate {
    fn inside(&self, caller: CallerId);
}

/// Does nothing.
#[derive(Clone, Copy, Debug, PartialEq, Eq)]
pub struct NoGate;

impl Gate for NoGate {
    fn inside(&self, _caller: CallerId) {}
}
