// Where an unknown place came from in one step: itself, where the step does not write it, or a place that the step reads for it.
#![tactic(auto)]

pub mod rule;

// The place before a step, by its number.
#[derive(Clone, Copy)]
pub enum Source {
    Kept,
    From(u32),
}
