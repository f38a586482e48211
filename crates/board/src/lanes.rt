// One lane of the contents under a job.
ghost use Rattle.std.specs.Prelude.{◌≡◌, ℕ, ◌+◌, ◌<◌, ◌≤◌, true, length, replicate, if◌then◌else◌};
ghost use Rattle.medium.specs.Meaning.{EachBelow};
ghost use Rattle.slot.specs.Lane.{mixed};
ghost use Rattle.board.specs.Sides.{is_even};
ghost use Rattle.board.specs.Sent.{worked_bytes};

use crate::side::Side;
use devices::Job;

// A job that one lane of a block does. One struct for both jobs, as `worked_bytes` (in specs/) has one form for both.
#[derive(Clone, Copy)]
pub(crate) struct LaneJob {
    pub(crate) job: Job,
    pub(crate) side: Side,
    // whether the lane has a life for it
    pub(crate) live: bool,
    // where the block starts, and how many bytes it has
    pub(crate) start: usize,
    pub(crate) size: usize,
    // where a write puts its byte
    pub(crate) place: usize,
    pub(crate) byte: u8,
}

impl LaneJob {
    // Does it to these contents.
    pub(crate) fn run(self, bytes: &mut [u8])
        requires held { self.place < length bytes.old }
        requires room { self.start + self.size ≤ length bytes.old }
        ensures items { bytes.new ≡ worked_bytes self.job (is_even self.side) self.start self.size self.place self.live self.byte bytes.old }
        ensures small { EachBelow 256 bytes.new }
    {
        match self.job {
            Job::Write => self.write(bytes),
            Job::Wipe => self.wipe(bytes),
        }
    }

    // A write: a lane that lives ANDs its byte, a worn one leaves it.
    fn write(self, bytes: &mut [u8])
        requires { self.place < length bytes.old }
        ensures { bytes.new ≡ worked_bytes Job.Write true 0 0 self.place self.live self.byte bytes.old }
    {
        if self.live {
            bytes[self.place] &= self.byte;
        }
    }

    // A wipe of the lane.
    fn wipe(self, bytes: &mut [u8])
        requires { self.start + self.size ≤ length bytes.old }
        ensures { bytes.new ≡ worked_bytes Job.Wipe (is_even self.side) self.start self.size 0 self.live 0 bytes.old }
    {
        let block = &mut bytes[self.start..self.start + self.size];
        fill_lane(block, self.side, self.wiped_byte());
    }

    // What a wipe leaves in each byte of the lane: a worn one holds 00H.
    fn wiped_byte(self) -> u8
        ensures { result ≡ (if self.live then 0xff else 0x00) }
    {
        if self.live { 0xff } else { 0x00 }
    }
}

// Fills one lane of a block.
fn fill_lane(block: &mut [u8], side: Side, byte: u8)
    ensures { block.new ≡ mixed (is_even side) (replicate (length block.old) byte) block.old }
{
    // By place, in steps of two: a loop over all bytes that tests each place takes five times as long.
    for place in (side.index()..block.len()).step_by(2) {
        block[place] = byte;
    }
}
