//! What a replay is: the script language, the host that a script makes, the lines of a run, and what a replay writes;
//! definitions and laws, and the code of a host's own answers and of the lines.
#![tactic(auto)]

mod host;
mod laws;
mod lines;
mod look_ups;
mod script;

pub use host::answer_by_itself;
pub use laws::{
    pieces_add_up, scripts_write_lines, sessions_are_apart, twins_write_the_same,
    whole_inputs_are_one_run,
};
pub use lines::{push_call_line, push_end_line, push_left_line, push_stop_line};
pub use look_ups::LookUps;
pub use script::{Event, Line, Script, ScriptFault};
