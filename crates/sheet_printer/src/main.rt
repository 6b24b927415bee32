// Prints the covered cells and the steps of the sheet on standard input.
#![tactic(auto)]

use report::{read_all, sheet_report};
use std::io;

fn main(rt: HostRuntime) -> io::Result<()> {
    let heap = rt.alloc();
    let bytes = read_all(heap, rt.stdin())?;
    rt.print(sheet_report(heap, bytes.as_slice())?)
}
