// How long devices are busy after a job.
ghost use Rattle.std.specs.Prelude.{◌≡◌, ◌≤◌, min};
ghost use Rattle.devices.specs.Chip.{longest_wait};

use devices::LONGEST_WAIT;

// The waits that a write and a wipe start, neither over the longest.
#[derive(Clone, Copy)]
pub struct Waits {
    pub(crate) write: u32,
    pub(crate) wipe: u32,
    ghost short_write: { write ≤ longest_wait },
    ghost short_wipe: { wipe ≤ longest_wait },
}

impl Waits {
    // A number over the longest counts as the longest.
    pub fn new(write: u32, wipe: u32) -> Waits
        ensures write { result.write ≡ min write longest_wait }
        ensures wipe { result.wipe ≡ min wipe longest_wait }
    {
        Waits {
            write: write.min(LONGEST_WAIT),
            wipe: wipe.min(LONGEST_WAIT),
        }
    }
}
