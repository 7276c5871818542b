#![tactic(auto)]
// Takes one soil column through the weather table on standard input and prints its balance.
mod loam;

use balance::table::run_table;
use loam::loam;
use std::io::Read;

fn main(rt: HostRuntime) -> anyhow::Result<()> {
    let mut bytes = Vec::new(rt.alloc());
    rt.stdin().read_to_end(&mut bytes)?;
    let mut column = loam();
    // The lines are what is promised; they are printed as they are.
    for (name, number) in run_table(&mut column, &bytes).lines() {
        println!(rt; "{name} {number}")?;
    }
    Ok(())
}
