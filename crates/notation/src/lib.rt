// How a script writes numbers, bytes and words, and why a line of it cannot be carried out.
//
// Numbers are decimal, or hexadecimal after 0x. Bytes are pairs of hexadecimal digits. specs/ says what each stands for;
// a reading answers that, or refuses, and refuses nothing else.
#![tactic(auto)]

mod digits;
mod pairs;
mod printing;
#[cfg(test)]
mod tests;
mod why;
mod words;

pub use digits::number;
pub use pairs::{repeated, unpaired};
pub use printing::print_hex;
pub use why::Why;
pub use words::Words;
