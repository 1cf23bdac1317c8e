//! What each event of a replay did: who went on, what a directive counted and placed, what a queue performed.
#![tactic(auto)]

mod counts;
mod deed;
mod found;
mod head;
mod lane;
mod laws;
mod layout;
mod line;
mod picture;
mod refusal;
mod scene;
mod source;
mod waits;
mod walk;
mod words;

pub use deed::{Deed, take_step};
pub use laws::{events_are_by_line, pictures_tell_all};
pub use line::{Telling, put_step};
pub use picture::{MAX_BOXES, MAX_BYTES, draw_steps};
pub use walk::{Numbered, lines_of, numbered_events, tell_steps};
