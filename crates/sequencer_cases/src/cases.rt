//! Programs that are written down: a block of lines each, of which the first has a name and the inputs of some clocks.

use crate::running::{Run, run_of_source};
use std::io;

fn show_case(rt: &HostRuntime, block: &str) -> io::Result<()> {
    let Some((head, source)) = block.split_once('\n') else {
        return println!(rt; "a case without a source");
    };
    let Some((name, given)) = head.split_once(':') else {
        return println!(rt; "a case without inputs");
    };
    match run_of_source(rt.alloc(), source.as_bytes(), given) {
        Some(
            Run {
                sound: true,
                clocks,
                same,
            },
        ) => println!(rt; "{name}: sound, the same in {same} of {clocks} clocks"),
        Some(_) => println!(rt; "{name}: not sound"),
        None => println!(rt; "{name}: no transfers"),
    }
}

pub(crate) fn show_cases(rt: &HostRuntime, programs: &[u8]) -> io::Result<()> {
    let text = String::from_utf8_lossy(rt.alloc(), programs)?;
    for block in text.split("\n\n") {
        show_case(rt, block)?;
    }
    Ok(())
}
