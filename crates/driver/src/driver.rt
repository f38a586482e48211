// A driver: any slot, held by value, as a medium.
ghost use Rattle.std.specs.Prelude.{◌≡◌, ◌+◌, ◌*◌, ◌≤◌, true, false, length, take, drop, slice_index, None, Ok};
ghost use Rattle.medium.specs.Jobs.{answers, gives, refuse_if, ReadDone, WordDone, WipeDone};
ghost use Rattle.medium.specs.declared.fault.Fault.TheVariants.{Locked};
ghost use Rattle.devices.specs.declared.device.Mode.TheVariants.{Status};
ghost use Rattle.devices.specs.Table.{all_ready};
ghost use Rattle.slot.specs.State.{as_medium, even_chip, odd_chip, slot_blocks, slot_capacity, with_chips, SlotSwitched};
ghost use Rattle.slot.specs.Cycles.{HasWord, WordWritten, cycle_read, even_shown, odd_shown, was_reset};
ghost use Rattle.driver.specs.Status.{Polled};
ghost use Rattle.driver.specs.Driven.{ReadLeaves, WipeLeaves, WordLeaves, wipe_kept, word_kept};
ghost use Rattle.driver.specs.Steps.{Ran, follow_of, job_of};

use crate::job::PairJob;
use crate::status::PairStatus;
use medium::{Fault, Medium, Size, test_word};
use slot::{Slot, SlotSwitch};

// A slot as a medium. All its blocks are locked exactly when the protect pin is on.
#[derive(Drop)]
pub struct Driver<S> {
    slot: S,
}

impl<S: Slot> Driver<S> {
    pub fn new(slot: S) -> Driver<S>
        ensures { result.slot ≡ slot }
    {
        Driver { slot }
    }

    // Gives the slot back.
    pub fn into_slot(self) -> S
        ensures { result ≡ self.slot }
    {
        let Driver { slot } = self;
        slot
    }

    // Moves switches of the slot.
    pub fn turn_slot<W: SlotSwitch<S>>(&mut self, switch: &mut W)
        ensures turns { W.turns switch.old self.old.slot self.new.slot switch.new }
        ensures only { SlotSwitched (S.state self.old.slot) (S.state self.new.slot) }
    {
        switch.turn(&mut self.slot);
    }

    // The slot's size, as a medium's.
    fn extent(&self) -> Size
        ensures block_size { result.block_size ≡ (S.state self.now.slot).block_size }
        ensures blocks { result.blocks ≡ slot_blocks (S.state self.now.slot) }
    {
        self.slot.size().as_medium()
    }

    // Refuses a job at a place while the protect pin is on.
    fn test_lock(&self, place: u64) -> Result<(), Fault>
        ensures { result ≡ answers (refuse_if (S.state self.now.slot).pin (Locked place) None) }
    {
        if self.slot.pin() {
            return Err(Fault::Locked { place });
        }
        Ok(())
    }

    // The tests of a word write, but for the supply, of which only the devices tell.
    fn admit_word(&self, place: u32) -> Result<(), Fault>
        ensures { result ≡ answers (word_kept (S.state self.now.slot) place) }
    {
        test_word(self.extent().capacity(), place)?;
        self.test_lock(place as u64)
    }

    // The tests of a wipe, but for the supply; answers the block's first place.
    fn admit_wipe(&self, block: u32) -> Result<u32, Fault>
        ensures { result ≡ gives (wipe_kept (S.state self.now.slot) block) (block * (S.state self.now.slot).block_size) }
    {
        let place = self.extent().find_block(block)?;
        self.test_lock(place)?;
        Ok(place as u32)
    }

    // Samples until all devices are ready, which they are after as many samples as the patience.
    fn wait_ready(&mut self)
        ensures same { S.state self.new.slot ≡ with_chips (S.state self.old.slot) (S.state self.new.slot).chips }
        ensures ready { all_ready (S.state self.new.slot).chips ≡ true }
    {
        // A loop, and no `any`: of a slot that a closure changes turn by turn, a proof knows nothing afterwards.
        for _ in 0..S::longest_wait() {
            if self.slot.sample() {
                return;
            }
        }
    }

    // Resets devices that are all ready: a reset would cut off the job of a busy one.
    fn reset_ready(&mut self)
        requires { all_ready (S.state self.old.slot).chips ≡ true }
        ensures { S.state self.new.slot ≡ was_reset (S.state self.old.slot) }
    {
        self.slot.reset();
    }

    // Waits for jobs that are under way, and resets all devices.
    fn settle(&mut self)
        ensures { S.state self.new.slot ≡ was_reset (S.state self.old.slot) }
    {
        self.wait_ready();
        self.reset_ready();
    }

    // Sends a word to the pair at a place.
    fn send(&mut self, place: u32, word: u16)
        requires { HasWord (S.state self.old.slot) place }
        ensures { WordWritten S.patience (S.state self.old.slot) place word (Ok tt) (S.state self.new.slot) }
    {
        self.slot.write_word(place, word).unwrap();
    }

    // The bytes that the two devices show, the even one's first.
    fn look(&mut self, place: u32) -> [u8; 2]
        requires { HasWord (S.state self.old.slot) place }
        ensures even { slice_index result 0 ≡ even_shown (S.state self.old.slot) place }
        ensures odd { slice_index result 1 ≡ odd_shown (S.state self.old.slot) place }
        ensures after { S.state self.new.slot ≡ cycle_read (S.state self.old.slot) place }
    {
        self.slot.read_word(place).unwrap().to_le_bytes()
    }

    // Fills a buffer from devices that are as after reset.
    fn fill(&mut self, place: u32, buffer: &mut [u8])
        requires on { place + length buffer.old ≤ slot_capacity (S.state self.old.slot) }
        requires fresh { S.state self.old.slot ≡ was_reset (S.state self.old.slot) }
        ensures shown { buffer.new ≡ take (length buffer.old) (drop place (S.state self.old.slot).bytes) }
        ensures same { S.state self.new.slot ≡ S.state self.old.slot }
    {
        // the word that was read last
        let mut word = [0; 2];
        for (i, byte) in buffer.iter_mut().enumerate() {
            let at = place + i as u32;
            if i == 0 || at % 2 == 0 {
                word = self.look(at - at % 2);
            }
            *byte = word[at as usize % 2];
        }
    }

    // What the two devices show in status mode.
    fn read_status(&mut self, place: u32) -> PairStatus
        requires { HasWord (S.state self.old.slot) place }
        ensures even { result.even.0 ≡ even_shown (S.state self.old.slot) place }
        ensures odd { result.odd.0 ≡ odd_shown (S.state self.old.slot) place }
        ensures after { S.state self.new.slot ≡ cycle_read (S.state self.old.slot) place }
    {
        PairStatus::new(self.look(place))
    }

    // Reads status until both devices of the pair at a place are ready, and answers what they last showed. No wait is
    // longer than the patience, so the read after as many shows them ready.
    fn poll(&mut self, place: u32) -> PairStatus
        requires on { HasWord (S.state self.old.slot) place }
        requires even { (even_chip (S.state self.old.slot) place).mode ≡ Status }
        requires odd { (odd_chip (S.state self.old.slot) place).mode ≡ Status }
        ensures { Polled (S.state self.old.slot) place result.even.0 result.odd.0 (S.state self.new.slot) }
    {
        // A loop, and no `find`, as in `wait_ready`.
        for _ in 0..S::longest_wait() {
            let status = self.read_status(place);
            if status.is_ready() {
                return status;
            }
        }
        self.read_status(place)
    }

    // Has the pair at a place do a job, and answers how it ended.
    fn run(&mut self, job: PairJob, place: u32) -> Result<(), Fault>
        requires on { HasWord (S.state self.old.slot) place }
        requires off { (S.state self.old.slot).pin ≡ false }
        ensures { Ran S.patience (job_of job) (S.state self.old.slot) place (follow_of job) result (S.state self.new.slot) }
    {
        self.settle();
        self.send(place, job.command());
        self.send(place, job.follow());
        self.poll(place).judge(place as u64)
    }
}

impl<S: Slot> Medium for Driver<S> {
    ghost meaning = { λ d. as_medium (S.state d.slot) };

    ghost sound = { λ m. (S.sound m.slot).medium };

    fn size(&self) -> Size {
        self.extent()
    }

    fn read(&mut self, place: u32, buffer: &mut [u8]) -> Result<(), Fault>
        ensures medium { ReadDone (as_medium (S.state self.old.slot)) place buffer.old result (as_medium (S.state self.new.slot)) buffer.new }
        ensures slot { ReadLeaves (S.state self.old.slot) place (length buffer.old) (S.state self.new.slot) }
    {
        self.extent().test_range(place as u64, buffer.len() as u64)?;
        self.settle();
        self.fill(place, buffer);
        Ok(())
    }

    fn write_word(&mut self, place: u32, word: u16) -> Result<(), Fault>
        ensures medium { WordDone (as_medium (S.state self.old.slot)) place word result (as_medium (S.state self.new.slot)) }
        ensures slot { WordLeaves (S.state self.old.slot) place (S.state self.new.slot) }
    {
        self.admit_word(place)?;
        self.run(PairJob::WriteWord(word), place)
    }

    fn wipe(&mut self, block: u32) -> Result<(), Fault>
        ensures medium { WipeDone (as_medium (S.state self.old.slot)) block result (as_medium (S.state self.new.slot)) }
        ensures slot { WipeLeaves (S.state self.old.slot) block (S.state self.new.slot) }
    {
        let place = self.admit_wipe(block)?;
        self.run(PairJob::WipeBlock, place)
    }
}
