//! The program `temu`: it runs nets of T414 transputers from wiring files, replays logs of events, tells where each
//! process stands after them, and shows the instructions of images.
#![tactic(auto)]

use std::process::ExitCode;
use tconsole::{Missing, read_command};
use tprogram::do_asked;

fn main(rt: HostRuntime) -> ExitCode {
    let _missing = Missing::fill(&rt);
    let asked = read_command(&rt);
    ExitCode::from(do_asked(&rt, &rt, asked))
}
