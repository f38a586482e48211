// A whole script.
use crate::printing::print_answer;
use crate::session::Session;
use anyhow::anyhow;
use notation::Words;
use std::io::{BufWriter, Read, Write};
use std::{fs, io};

// Carries out a script, and writes the record of each of its commands to standard output.
fn run(rt: &HostRuntime, script: &[u8]) -> io::Result<()> {
    let mut out = BufWriter::new(rt.alloc(), rt.stdout())?;
    let mut session = Session::new(rt.alloc());
    for (i, line) in script.split(|byte| *byte == b'\n').enumerate() {
        let mut words = Words::new(line);
        if let Some(verb) = words.optional() {
            let answer = session.obey(rt, verb, words);
            print_answer(&mut out, i + 1, &answer)?;
        }
    }
    out.flush()
}

// The text of a script: that of a file, or standard input where the name is "-".
fn script_text(rt: &HostRuntime, name: &str) -> io::Result<Vec<u8>> {
    if name != "-" {
        return fs::read(rt, name);
    }
    let mut text = Vec::new(rt.alloc());
    rt.stdin().read_to_end(&mut text)?;
    Ok(text)
}

// Carries out the script of a file, or of standard input where the name is "-". No clause can say what a file gives or
// what is printed, so none is here.
pub fn run_named(rt: &HostRuntime, name: &str) -> anyhow::Result<()> {
    let Ok(text) = script_text(rt, name) else {
        return Err(anyhow!("the script cannot be read"));
    };
    run(rt, &text)?;
    Ok(())
}
