//! Laws of the grammar: worked texts, computed by the definitions that `acc_script` and `acc_schedule` read by; and
//! programs, each read again as it is spelled. They stand in a crate of their own, which is proved
//! beside those that stand on the two.
#![tactic(auto)]

mod spelling;
mod worked;

pub use spelling::{
    act_is_read_again, arrays_are_read_again, expression_is_read_again, loop_is_read_again,
    program_is_read_again, range_is_read_again, statement_is_read_again,
};
pub use worked::{
    worked_loop_texts, worked_schedules, worked_script_faults, worked_scripts, worked_spelling,
};
