//! The program `cmph_shards`: the top call over real files and the standard streams.
#![tactic(auto)]

use cm_real::{FileDisk, StdSink, words_of};
use cm_shards::{PROGRAM, report_no_memory, shards_run};
use std::process;
use std::process::ExitCode;

fn main(rt: HostRuntime) -> ExitCode {
    let mut out = StdSink::new(rt.stdout());
    let mut err = StdSink::new(rt.stderr());
    let mut disk = FileDisk::new(&rt, rt.alloc(), process::id(rt.process()));
    match words_of(&rt, PROGRAM) {
        Ok(words) => ExitCode::from(shards_run(rt.alloc(), &words, &mut disk, &mut out, &mut err)),
        Err(_) => ExitCode::from(report_no_memory(PROGRAM, &mut err)),
    }
}
