//! Lines: what a line of the input commands, and the text of each reply.
#![tactic(auto)]

mod bounds;
mod cells;
mod changes;
mod columns;
mod commands;
mod grammar;
mod keys;
mod laws;
mod meaning;
mod parts;
mod printing;
mod reading;
mod shapes;

pub use commands::{Command, Figures, LineErr, Refusal, Reply};
pub use laws::{
    commands_fit_their_schema, commands_read_back, deletes_read_back, each_command_has_its_line,
    inserts_read_back, lines_are_read_by_shape, lines_give_what_one_line_can_say,
    long_lines_are_cut, longest_line_is_named, partition_deletes_read_back,
    plain_commands_read_back, sayable_lines_are_meant, sayable_lines_read_back,
};
pub use printing::{print_refusal, print_reply};
pub use reading::{LONGEST_LINE, read_line};
