//! What every crate stands on: lists, boxes and shared values that contracts see as what they hold, texts, refusals, names, reserved
//! room and counts.
#![tactic(auto)]

mod boxed;
mod compared;
mod fault_plan;
mod list;
mod names;
mod refusal;
mod room;
mod shared;
mod steps;

pub use boxed::Boxed;
pub use fault_plan::FaultPlan;
pub use list::List;
pub use names::{Name, Names};
pub use refusal::{Bytes, Memory, Refusal, Span, Stop, Text};
pub use room::Room;
pub use shared::Shared;
pub use steps::Steps;
