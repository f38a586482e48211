// The devices of a card.
ghost use Rattle.std.specs.Prelude.{◌≡◌, ◌*◌, min, map, replicate};
ghost use Rattle.medium.specs.Limits.{most_pairs};
ghost use Rattle.devices.specs.Chip.{chip, fresh, longest_wait, lowered, shows, was_read};
ghost use Rattle.devices.specs.Commands.{begins, begun, took};
ghost use Rattle.devices.specs.Table.{Became, Changed, all_ready, device_at, table_chips, table_pairs};

use crate::device::{Device, Job};

// The most device pairs that a card may have.
pub const MOST_PAIRS: u32 = 10;

// And so the most devices.
pub const MOST_DEVICES: usize = 2 * MOST_PAIRS as usize;

// The devices of a card: the even one of pair n is number 2n, the odd one the next. One that is not there is as
// after reset, takes no byte and keeps nothing. A stored number of pairs over the most counts as the most.
#[derive(Drop)]
pub struct DeviceTable {
    // An array with `pairs` beside it, and no `Vec`: to make a table neither allocates nor fails.
    devices: [Device; MOST_DEVICES],
    pairs: u32,
}

impl DeviceTable {
    // So many pairs, all devices as after reset.
    pub fn new(pairs: u32) -> DeviceTable
        ensures pairs { table_pairs result ≡ min pairs most_pairs }
        ensures chips { table_chips result ≡ replicate (2 * min pairs most_pairs) fresh }
    {
        DeviceTable {
            devices: [Device::new(); MOST_DEVICES],
            pairs,
        }
    }

    pub fn pairs(&self) -> u32
        ensures { result ≡ table_pairs self.now }
    {
        self.pairs.min(MOST_PAIRS)
    }

    // How many devices there are.
    fn count(&self) -> usize
        ensures { result ≡ 2 * table_pairs self.now }
    {
        2 * self.pairs() as usize
    }

    // Device i takes a byte, and answers the job that begins.
    pub fn take(&mut self, i: usize, byte: u8, supply: bool) -> Option<Job>
        ensures after { Changed self.old i (took supply byte (device_at self.old i)) self.new }
        ensures job { result ≡ begins supply byte (device_at self.old i) }
    {
        if i >= self.count() {
            return None;
        }
        // By index, here and below: after a `get_mut` a proof knows of no device what it is then.
        self.devices[i].take(byte, supply)
    }

    // Device i has begun a job.
    pub fn begin(&mut self, i: usize, job: Job, worn: bool, wait: u32)
        ensures { Changed self.old i (begun job worn (min wait longest_wait) (device_at self.old i)) self.new }
    {
        if i >= self.count() {
            return;
        }
        self.devices[i].begin(job, worn, wait);
    }

    // What a read shows of device i, where it holds `held`.
    pub fn show(&mut self, i: usize, place: u32, held: u8) -> u8
        ensures shown { result ≡ shows (device_at self.old i) place held }
        ensures after { Changed self.old i (was_read (device_at self.old i)) self.new }
    {
        if i >= self.count() {
            return held;
        }
        self.devices[i].show(place, held)
    }

    // Whether all devices are ready; then each wait above 0 falls by one.
    pub fn sample(&mut self) -> bool
        ensures answer { result ≡ all_ready (table_chips self.old) }
        ensures after { Became self.old (map lowered (table_chips self.old)) self.new }
    {
        let count = self.count();
        sample_all(&mut self.devices[..count])
    }

    // All devices as after reset.
    pub fn reset(&mut self)
        ensures { Became self.old (replicate (2 * table_pairs self.old) fresh) self.new }
    {
        let device = Device::new();
        self.devices = [device; MOST_DEVICES];
    }
}

// Whether these devices are all ready; then each wait above 0 falls by one.
fn sample_all(devices: &mut [Device]) -> bool
    ensures answer { result ≡ all_ready (map chip devices.old) }
    ensures after { map chip devices.new ≡ map lowered (map chip devices.old) }
{
    let mut ready = true;
    for device in devices.iter_mut() {
        ready &= device.is_ready();
        device.lower();
    }
    ready
}
