//! `wcet analyse FUNCTION FILE COSTS` prints the worst-case cost of a loop-free function, `wcet run` one run of it.
#![tactic(auto)]

use std::env;
use std::process::ExitCode;
use wcet_core::{NoWords, exit_code, run, words_of};
use wx_base::{HostFiles, HostSink, Words};

// The words after the program's name.
fn words(rt: &HostRuntime) -> Result<Words, NoWords> {
    Ok(words_of(rt.alloc(), env::args(rt)?)?)
}

fn main(rt: HostRuntime) -> ExitCode {
    let words = match words(&rt) {
        Ok(words) => words,
        Err(cause) => return cause.exit_code(),
    };
    let (mut files, mut out) = (HostFiles::new(&rt), HostSink::new(&rt));
    exit_code(&run(rt.alloc(), &words, &mut files, &mut out))
}
