// Bus cycles of a board, by the devices that they reach.
ghost use Rattle.std.specs.Prelude.{◌≡◌, false, Some};
ghost use Rattle.medium.specs.Jobs.{answers};
ghost use Rattle.devices.specs.Table.{all_ready};
ghost use Rattle.slot.specs.State.{slot_capacity};
ghost use Rattle.slot.specs.Cycles.{HasWord, cycle_refusal, sampled, was_reset};
ghost use Rattle.board.specs.Sides.{index_at};
ghost use Rattle.board.specs.Held.{board_card, board_slot, card_of, with_slot};
ghost use Rattle.board.specs.Sent.{job_wait, sent};
ghost use Rattle.board.specs.Cycle.{cycle_reads, cycle_sends, cycle_shows, half_read, half_sent, half_shown};

use crate::board::Board;
use crate::lanes::LaneJob;
use crate::side::{Reach, Side};
use crate::waits::Waits;
use devices::Job;
use medium::{Fault, test_word};

impl Waits {
    // The wait that a job starts.
    fn after(self, job: Job) -> u32
        ensures { result ≡ job_wait job self.write self.wipe }
    {
        match job {
            Job::Write => self.write,
            Job::Wipe => self.wipe,
        }
    }
}

impl Board {
    // Bytes of all blocks.
    pub fn capacity(&self) -> u32
        ensures { result ≡ slot_capacity (board_slot self.now) }
    {
        self.extent().capacity() as u32
    }

    // Whether there is a word at a place.
    pub fn test_word(&self, place: u32) -> Result<(), Fault>
        ensures { result ≡ answers (cycle_refusal (board_slot self.now) place) }
    {
        test_word(self.extent().capacity(), place)
    }

    // The number of a device of the pair that holds the word at a place.
    fn device(&self, place: u32, side: Side) -> usize
        ensures { result ≡ index_at (board_slot self.now) place side }
    {
        let pair = place / self.geometry.block_size() / self.geometry.blocks_per_pair();
        2 * pair as usize + side.index()
    }

    // Reads one device at the word at a place.
    fn look(&mut self, place: u32, side: Side) -> u8
        requires { HasWord (board_slot self.old) place }
        ensures shown { result ≡ half_shown (board_slot self.old) place (Some side) }
        ensures after { board_card self.new ≡ with_slot (board_card self.old) (half_read (board_slot self.old) place (Some side)) }
    {
        let device = self.device(place, side);
        let held = self.bytes[side.place(place)];
        self.table.show(device, place, held)
    }

    // Sends a byte to one device at the word at a place, under a supply that is good or low.
    fn send(&mut self, place: u32, side: Side, byte: u8, supply: bool)
        requires { HasWord (board_slot self.old) place }
        ensures { card_of self.new supply false ≡ sent (card_of self.old supply false) place side byte }
    {
        let device = self.device(place, side);
        let Some(job) = self.table.take(device, byte, supply) else {
            return;
        };
        let size = self.geometry.block_size() as usize;
        let block = place as usize / size;
        let live = side.spend(&mut self.wear, block);
        self.table.begin(device, job, !live, self.waits.after(job));
        let lane_job = LaneJob {
            job,
            side,
            live,
            start: block * size,
            size,
            place: side.place(place),
            byte,
        };
        lane_job.run(&mut self.bytes);
    }

    // Reads one half of the bus at the word at a place.
    fn look_half(&mut self, place: u32, half: Option<Side>) -> u8
        requires { HasWord (board_slot self.old) place }
        ensures shown { result ≡ half_shown (board_slot self.old) place half }
        ensures after { board_card self.new ≡ with_slot (board_card self.old) (half_read (board_slot self.old) place half) }
    {
        match half {
            Some(side) => self.look(place, side),
            None => 0xff,
        }
    }

    // Sends one half of the bus to the word at a place.
    fn send_half(&mut self, place: u32, half: Option<Side>, byte: u8, supply: bool)
        requires { HasWord (board_slot self.old) place }
        ensures { card_of self.new supply false ≡ half_sent (card_of self.old supply false) place half byte }
    {
        if let Some(side) = half {
            self.send(place, side, byte, supply);
        }
    }

    // A read at a place, of the devices that it reaches. Where there is no word, it shows FFFFH and changes nothing.
    pub fn read_cycle(&mut self, place: u32, reach: Reach) -> u16
        ensures shown { result ≡ cycle_shows (board_slot self.old) place reach }
        ensures after { board_card self.new ≡ with_slot (board_card self.old) (cycle_reads (board_slot self.old) place reach) }
    {
        if self.test_word(place).is_err() {
            return 0xffff;
        }
        let low = self.look_half(place, reach.low);
        let high = self.look_half(place, reach.high);
        u16::from_le_bytes([low, high])
    }

    // A write at a place, to the devices that it reaches, under a supply that is good or low. Where there is no word,
    // nothing changes.
    pub fn write_cycle(&mut self, place: u32, reach: Reach, word: u16, supply: bool)
        ensures { card_of self.new supply false ≡ cycle_sends (card_of self.old supply false) place reach word }
    {
        if self.test_word(place).is_err() {
            return;
        }
        let [low, high] = word.to_le_bytes();
        self.send_half(place, reach.low, low, supply);
        self.send_half(place, reach.high, high, supply);
    }

    // Whether all devices are ready; then each wait above 0 falls by one.
    pub fn sample(&mut self) -> bool
        ensures answer { result ≡ all_ready (board_slot self.old).chips }
        ensures after { board_card self.new ≡ with_slot (board_card self.old) (sampled (board_slot self.old)) }
    {
        self.table.sample()
    }

    // All devices as after reset.
    pub fn reset(&mut self)
        ensures { board_card self.new ≡ with_slot (board_card self.old) (was_reset (board_slot self.old)) }
    {
        self.table.reset();
    }
}
