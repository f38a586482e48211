// What a pair of devices is asked to do.
ghost use Rattle.std.specs.Prelude.{◌≡◌};
ghost use Rattle.driver.specs.Steps.{command_of, follow_of, job_of};

// A job of both devices of a pair.
#[derive(Clone, Copy, PartialEq, Eq, Debug)]
pub(crate) enum PairJob {
    WriteWord(u16),
    WipeBlock,
}

impl PairJob {
    // The word that arms both devices for it.
    pub(crate) fn command(self) -> u16
        ensures { result ≡ command_of (job_of self) }
    {
        match self {
            PairJob::WriteWord(_) => 0x4040,
            PairJob::WipeBlock => 0x2020,
        }
    }

    // The word that follows it: a write's data, a wipe's confirmation.
    pub(crate) fn follow(self) -> u16
        ensures { result ≡ follow_of self }
    {
        match self {
            PairJob::WriteWord(word) => word,
            PairJob::WipeBlock => 0xd0d0,
        }
    }
}
