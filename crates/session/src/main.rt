// session: carries out the script on standard input, as `velvetopal run -` does. Its stored run has every form of record.
#![tactic(auto)]

use std::process::ExitCode;

fn main(rt: HostRuntime) -> ExitCode {
    script::end(&rt, "session", script::run_named(&rt, "-"))
}
