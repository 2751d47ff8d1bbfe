// Carries a day's instruction lines from standard input through cover above orders above a grid book, and prints an
// answer for each, then the sheet of held cells.
#![tactic(auto)]

use std::io::{BufWriter, Read, Write};

fn main(rt: HostRuntime) -> anyhow::Result<()> {
    let heap = rt.alloc();
    let mut input = Vec::new(heap);
    rt.stdin().read_to_end(&mut input)?;
    let lines = day::stacks::run_day(heap, input.as_slice())?;
    let mut out = BufWriter::new(heap, rt.stdout())?;
    for line in &lines {
        out.write_all(line.as_bytes())?;
    }
    out.flush()?;
    Ok(())
}
