// velvetopal: carries out a script of commands on cards in memory, or, where it is called without a word, a
// demonstration. That fills a card with two embroidery designs, patches one of them, clears a block and reads all back
// for proof, meets a lock and a worn lane on the way, and prints a record of every call with the totals that the law of
// the block writer speaks of. Then it runs the worked cases on small cards.
#![tactic(auto)]

mod cases;
mod designs;
mod hand;
mod help;
mod job;
mod record;
mod task;
mod totals;

use help::HELP;
use std::process::ExitCode;
use task::Task;

fn demonstrate(rt: &HostRuntime) -> anyhow::Result<()> {
    job::fill_and_patch(rt)?;
    cases::one_to_six(rt)?;
    cases::SEVEN.show(rt)?;
    cases::EIGHT.show(rt)
}

fn run(rt: &HostRuntime) -> anyhow::Result<()> {
    match task::asked(rt)? {
        Task::Demo => demonstrate(rt),
        Task::Help => Ok(rt.print(HELP)?),
        Task::Run(name) => script::run_named(rt, name.as_str()),
    }
}

fn main(rt: HostRuntime) -> ExitCode {
    script::end(&rt, "velvetopal", run(&rt))
}
