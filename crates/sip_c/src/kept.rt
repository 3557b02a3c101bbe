//! What stands behind a handle that may go from thread to thread.

use crate::run_asking::RunAsking;
use sip_ask_steps::SketchAsking;
use sip_runs::Following;
use sip_sketch::Sketch;

/// What a handle keeps.
#[derive(Drop)]
pub enum Kept {
    /// A sketch.
    Sketch(Sketch),
    /// A sketch that is asked.
    Asking(SketchAsking),
    /// A run while its stream goes by.
    Run(Following),
    /// A run whose questions are asked.
    RunAsking(RunAsking),
}
