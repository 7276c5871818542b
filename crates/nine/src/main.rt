#![tactic(auto)]
// Runs a weather table over bare rock and prints the nine lines of its log.
use anyhow::ensure;
use network::flows::{NO_REACH_FLOW, NO_UNIT_FLOW};
use std::io::{Read, Write};
use std::{env, fs};
use trial::bare::bare_basin;
use trial::table::run_table;

// The bytes of the file named as the one argument, or of standard input where there is none.
fn table(rt: &HostRuntime) -> anyhow::Result<Vec<u8>> {
    let mut args = env::args(rt)?;
    let file = args.nth(1);
    ensure!(args.next().is_none(), "nine takes one file at most");
    match file {
        Some(path) => Ok(fs::read(rt, path.as_str())?),
        None => {
            let mut bytes = Vec::new(rt.alloc());
            rt.stdin().read_to_end(&mut bytes)?;
            Ok(bytes)
        }
    }
}

fn run(rt: &HostRuntime) -> anyhow::Result<()> {
    let bytes = table(rt)?;
    let mut basin = bare_basin(rt.alloc())?;
    let figures = run_table(
        &mut basin,
        &bytes,
        &mut [NO_UNIT_FLOW],
        &mut [NO_REACH_FLOW],
    );
    let mut log = vec![in rt.alloc(); 0; figures.length()]?;
    // Not by `Display`: the contract of `write` says that it succeeds and what the buffer then holds.
    figures.write(&mut log).unwrap();
    rt.stdout().write_all(&log)?;
    Ok(())
}

fn main(rt: HostRuntime) -> anyhow::Result<()> {
    run(&rt)
}
