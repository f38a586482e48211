// The memory card: a card in plain memory, with no commands of its own, which is a medium.
//
// It owns its bytes and gives them back. Its one lock switch is for all blocks, and a second switch is for the
// supply. Lives are set on the card, for a block and its lanes, and are 0 at first. A worn lane leaves its bytes
// as they were. `card_meaning` (in specs/) says what the fields of a card stand for.
#![tactic(auto)]

mod card;
mod contents;
mod medium_of_card;
mod switches;
#[cfg(test)]
mod tests;

pub use card::MemoryCard;
