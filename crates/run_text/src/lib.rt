//! The texts of a run: its calls, one a line, its schedule, and its history.
#![tactic(auto)]

mod calls;
mod entrance;
mod error;
mod event;
mod field;
mod header;
mod history;
mod index;
mod line;
mod number;
mod opening;
mod part;
mod port;
mod room;
mod schedule;
mod step;
mod told;
mod value;
mod word;

pub use calls::read_calls;
pub use entrance::{Entrance, ValueType};
pub use error::{CallRule, HistoryRule, ScheduleRule, TextError};
pub use field::Field;
pub use history::read_history;
pub use line::lines_before;
pub use schedule::read_schedule;
pub use told::{History, LineNumbers};
