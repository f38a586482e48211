// Tests of the simulated cards: their access tables row by row, device commands over raw cycles, and puts through the
// driver that agree with the card in plain memory.
#![tactic(auto)]

#[cfg(test)]
mod access;
#[cfg(test)]
mod commands;
#[cfg(test)]
mod puts;
