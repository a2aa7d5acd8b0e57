// Histories of the coordinator: any of the eight calls, and the serial order of what they decide.
#![tactic(auto)]

mod cases;
mod dispatch;
mod opening;

pub use cases::cases_hold;
pub use dispatch::perform;
pub use opening::open_tables;
