//! The gate that lets everything through.

use crate::{Gate, Moment};
use std::marker::{Send, Sync};

/// A gate that does nothing.
#[derive(Clone, Copy, Debug)]
pub struct OpenGate;

impl Gate for OpenGate {
    fn pass(&self, _actor: u32, _process: u32, _moment: Moment) {}
}

fn crosses_threads<T: Send + Sync>(_value: &T) {}

fn open_gate_crosses_threads(gate: &OpenGate) {
    crosses_threads(gate);
}
