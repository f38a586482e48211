// Job scripts: commands on cards in memory, line by line, and a record of each.
//
// A line is read as a whole into a `Command` before anything is tried. A `Session` holds the cards by name, each with its
// layers and its last block buffer, and answers a `Record` to each command. docs/script.md is what all of this keeps to.
// Other crates see one call, which carries out a whole script, and one that ends a program.
#![tactic(auto)]

mod card;
mod command;
mod ending;
mod held;
mod parsing;
mod pile;
mod printing;
mod record;
mod running;
mod session;
mod steps;
mod texts;
mod trouble;
mod writing;

pub use ending::end;
pub use running::run_named;
