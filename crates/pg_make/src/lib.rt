//! Made schedules: three numbers stand for a schedule, the same one each time.
//!
//! `draw` draws numbers below a bound, `action` has the table of what can happen, `event` draws an
//! event, and `making` has the whole schedule: line by line for who runs it, and as a text.
//!
//! It touches the kit's generator (`rand_pcg`) and lines, and no run. What is drawn is a function
//! of the generator's state, and each definition hands on the generator that is left.
//!
//! Definitions: `specs/Draw`, `Action`, `Event` and `Made`. docs/FORMATS.md, section 8. A further
//! action changes what every number stands for, so it wants a table of its own.
#![tactic(auto)]

mod action;
mod draw;
mod event;
mod making;

pub use event::next_event;
pub use making::{first_words, last_settling, schedule, settling_after};
