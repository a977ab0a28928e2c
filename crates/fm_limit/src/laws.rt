// The laws of the limit.

pub mod chains;
pub mod examples;
pub mod homotopy;
pub mod independence;
pub mod instances;
pub mod lifts;
pub mod roots;
pub mod stages;
pub mod systems;
pub mod verdicts;
pub mod worked;
