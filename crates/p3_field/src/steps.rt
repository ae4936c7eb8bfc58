//! Runs of steps over registers: of a ring, of a field, and of vectors of packings.
pub use p3_helpers::steps::{
    FieldStep, Registers, Step, StepFault, StepRefused, run_field_steps, run_steps, steps_fit,
};
pub use p3_vectorized::steps::run_lane_steps;
