// One flash device.
ghost use Rattle.std.specs.Prelude.{◌≡◌, min, if◌then◌else◌, Some, None};
ghost use Rattle.devices.specs.Chip.{chip, fresh, longest_wait, lowered, ready, shows, status, was_read};
ghost use Rattle.devices.specs.Commands.{begins, begun, held_back, in_mode, job_tried, took};

#[cfg(test)]
mod tests;

// The longest wait that a device keeps: a larger number counts as this one. `longest_wait` (in specs/) says the
// number again, so that no edit of the code moves what is promised.
pub const LONGEST_WAIT: u32 = 1000;

// What a read shows, and what the next byte means.
#[derive(Clone, Copy, PartialEq, Eq, Debug)]
pub enum Mode {
    // reads show the contents
    Array,
    // reads show the maker and the device code
    Ident,
    // reads show the status byte
    Status,
    // as Status, and the next byte is data
    WriteArmed,
    // as Status, and D0H as the next byte confirms
    WipeArmed,
}

// What a device can begin at its lane.
#[derive(Clone, Copy, PartialEq, Eq, Debug)]
pub enum Job {
    Write,
    Wipe,
}

// A device, but for the bytes and the lives of its lane.
#[derive(Clone, Copy)]
pub struct Device {
    mode: Mode,
    // how many samples or reads of its status will still find it busy, at most LONGEST_WAIT
    wait: u32,
    // bit 5 of its status: an error of a wipe
    wipe_error: bool,
    // bit 4: an error of a write
    write_error: bool,
    // bit 3: the supply was low
    supply_error: bool,
}

impl Device {
    // As after reset.
    pub fn new() -> Device
        ensures { chip result ≡ fresh }
    {
        Device {
            mode: Mode::Array,
            wait: 0,
            wipe_error: false,
            write_error: false,
            supply_error: false,
        }
    }

    pub fn is_ready(&self) -> bool
        ensures { result ≡ ready (chip self.now) }
    {
        self.wait == 0
    }

    // Takes a byte, under a supply that is good or low, and answers the job that begins.
    pub fn take(&mut self, byte: u8, supply: bool) -> Option<Job>
        ensures after { chip self.new ≡ took supply byte (chip self.old) }
        ensures job { result ≡ begins supply byte (chip self.old) }
    {
        if !self.is_ready() {
            return None;
        }
        match (self.mode, byte) {
            (Mode::WriteArmed, _) => self.try_job(supply, Job::Write),
            (Mode::WipeArmed, 0xd0) => self.try_job(supply, Job::Wipe),
            (Mode::WipeArmed, _) => {
                self.wipe_error = true;
                self.write_error = true;
                self.turn(Mode::Status)
            }
            (_, 0x50) => {
                self.wipe_error = false;
                self.write_error = false;
                self.supply_error = false;
                self.turn(Mode::Array)
            }
            (_, 0x90) => self.turn(Mode::Ident),
            (_, 0x70) => self.turn(Mode::Status),
            (_, 0x40 | 0x10) => self.turn(Mode::WriteArmed),
            (_, 0x20) => self.turn(Mode::WipeArmed),
            // FFH, and every byte that is no command
            (_, _) => self.turn(Mode::Array),
        }
    }

    // Turns to a mode, and begins nothing.
    fn turn(&mut self, mode: Mode) -> Option<Job>
        ensures after { chip self.new ≡ in_mode mode (chip self.old) }
        ensures job { result ≡ None }
    {
        self.mode = mode;
        None
    }

    // Begins a job, unless the supply is low or bit 3 stands: then it sets bit 3.
    fn try_job(&mut self, supply: bool, job: Job) -> Option<Job>
        ensures after { chip self.new ≡ job_tried supply (chip self.old) }
        ensures job { result ≡ (if held_back supply (chip self.old) then None else Some job) }
    {
        self.mode = Mode::Status;
        self.supply_error |= !supply;
        (!self.supply_error).then_some(job)
    }

    // The error bit and the wait of a job that has begun.
    pub fn begin(&mut self, job: Job, worn: bool, wait: u32)
        ensures { chip self.new ≡ begun job worn (min wait longest_wait) (chip self.old) }
    {
        match job {
            Job::Write => self.write_error |= worn,
            Job::Wipe => self.wipe_error |= worn,
        }
        self.wait = wait;
    }

    pub fn status(&self) -> u8
        ensures { result ≡ status (chip self.now) }
    {
        bit(0x80, self.is_ready())
            + bit(0x20, self.wipe_error)
            + bit(0x10, self.write_error)
            + bit(0x08, self.supply_error)
    }

    // Lowers a wait that is not 0 by one.
    pub fn lower(&mut self)
        ensures { chip self.new ≡ lowered (chip self.old) }
    {
        self.wait = self.wait.min(LONGEST_WAIT).saturating_sub(1);
    }

    // What a read at a place shows, where the device holds `held`. A device that shows its status then lowers its wait.
    pub fn show(&mut self, place: u32, held: u8) -> u8
        ensures shown { result ≡ shows (chip self.old) place held }
        ensures after { chip self.new ≡ was_read (chip self.old) }
    {
        match self.mode {
            Mode::Array => held,
            Mode::Ident => { if place / 2 % 2 == 0 { 0x89 } else { 0xa2 } }
            Mode::Status | Mode::WriteArmed | Mode::WipeArmed => {
                let shown = self.status();
                self.lower();
                shown
            }
        }
    }
}

// A bit of the status byte, if it stands.
fn bit(value: u8, stands: bool) -> u8
    ensures { result ≡ (if stands then value else 0) }
{
    if stands { value } else { 0 }
}
