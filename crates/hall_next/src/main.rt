// hall: plays the rehearsal on standard input, and prints a line for each of its steps.
#![tactic(auto)]

use rehearsal_next::transcript;
use std::io::Read;

// A function that takes the transcript as a closure would have to ask of its callers that it may be called.
fn main(rt: HostRuntime) -> anyhow::Result<()> {
    let heap = rt.alloc();
    let mut input = Vec::new(heap);
    rt.stdin().read_to_end(&mut input)?;
    let text = transcript(heap, input.as_slice())?;
    rt.print(text)?;
    Ok(())
}
