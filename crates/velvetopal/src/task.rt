// What the program is called for.
use anyhow::anyhow;
use std::env;

// A task, by the words behind the program's name.
#[derive(Drop)]
pub(crate) enum Task {
    // no word: the demonstration
    Demo,
    // "help"
    Help,
    // "run SCRIPT"
    Run(String),
}

// The task that the words ask for.
pub(crate) fn asked(rt: &HostRuntime) -> anyhow::Result<Task> {
    let mut words = env::args(rt)?;
    let _program = words.next();
    let Some(first) = words.next() else {
        return Ok(Task::Demo);
    };
    let task = match (first.as_str(), words.next()) {
        ("help", None) => Task::Help,
        ("run", Some(name)) => Task::Run(name),
        _ => return Err(anyhow!("no such task; `velvetopal help` tells what there is")),
    };
    if words.next().is_some() {
        return Err(anyhow!("a word too many; `velvetopal help` tells what there is"));
    }
    Ok(task)
}
