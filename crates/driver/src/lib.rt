// The driver: any slot as a medium, by the commands of its devices alone.
//
// After its tests a call waits until all devices are ready, and resets them. Then a read reads words from the
// array. A job arms both devices of a pair with 4040H or 2020H, sends the word or D0D0H, and reads status until both
// are ready; each lane is judged by its own device's status byte. The driver is one text for all slots, proved from
// the contracts of `Slot`.
//
// Its calls keep the contracts of a medium. They also say what is left of the slot itself, all of it: the medium's
// contracts alone would let a driver judge before the devices are ready.
#![tactic(auto)]

mod driver;
mod job;
mod status;

pub use driver::Driver;
