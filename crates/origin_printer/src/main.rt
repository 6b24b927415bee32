// Prints the origin set of each cell of the sheet on standard input.
#![tactic(auto)]

use report::{origin_report, read_all};
use std::io;

fn main(rt: HostRuntime) -> io::Result<()> {
    let heap = rt.alloc();
    let bytes = read_all(heap, rt.stdin())?;
    rt.print(origin_report(heap, bytes.as_slice())?)
}
