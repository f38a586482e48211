// The flash device: the chip that holds one lane of some blocks, by the commands that it takes.
//
// A device has a mode, a wait and three error bits. What a byte does to it depends on its mode and that byte
// together; some bytes begin a job, a write or a wipe, and the device is then busy for as long as its wait. What a
// read shows depends on the mode: the contents, the maker and the device code, or the status byte. `Chip` and the
// tables of commands (in specs/) are what each function is proved equal to.
//
// The crate knows neither the bytes nor the lives of a lane: who holds them does the job that a device begins, and
// tells the device whether the lane was worn and how long to wait. `DeviceTable` is the devices of a whole card.
#![tactic(auto)]

mod device;
mod table;

pub use device::{Device, Job, LONGEST_WAIT, Mode};
pub use table::{DeviceTable, MOST_DEVICES, MOST_PAIRS};
