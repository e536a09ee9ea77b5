//! Names that stand side by side as those of pads.

use mp_base::{List, Name, NoMemory, Pad, Pads};
use std::alloc::{AllocError, Global};
use std::io;

// A list of one pad, a signal.
fn one_pad(alloc: Global, name: &str) -> Result<List<Pad>, AllocError> {
    let name = Name::from_slice(alloc, name.as_bytes())?;
    Ok(List::from_vec(vec![in alloc; Pad { name, width: 0 }]?))
}

fn stand(alloc: Global, input: &str, output: &str) -> Result<bool, NoMemory> {
    let pads = Pads::new(alloc, one_pad(alloc, input)?, one_pad(alloc, output)?)?;
    Ok(pads.is_some())
}

pub(crate) fn show(rt: &HostRuntime) -> io::Result<()> {
    for (input, output) in [("a", "y"), ("a", "a"), ("phia", "y"), ("a", "b c")] {
        match stand(rt.alloc(), input, output) {
            Ok(stand) => println!(rt; "{input} beside {output}: {stand}")?,
            Err(NoMemory) => println!(rt; "no memory")?,
        }
    }
    Ok(())
}
