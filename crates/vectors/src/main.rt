// vectors: hashes known messages, and says of each digest whether it is the one that the table expects.
#![tactic(auto)]

mod digits;
mod table;
mod vector;

use table::VECTORS;

fn main(rt: HostRuntime) -> anyhow::Result<()> {
    run(&rt)
}

fn run(rt: &HostRuntime) -> anyhow::Result<()> {
    let mut agreed = 0usize;
    for vector in &VECTORS {
        let name = vector.name;
        let digest = vector.computed(rt.alloc())?;
        let verdict = if digest.as_str() == vector.digest {
            agreed += 1;
            "agrees"
        } else {
            "differs"
        };
        println!(rt; "{name}: {digest} {verdict}")?;
    }
    let all = VECTORS.len();
    println!(rt; "{agreed} of {all} agreed")?;
    Ok(())
}
