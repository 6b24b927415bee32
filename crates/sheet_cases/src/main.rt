// Converts each sheet of a table on standard input and prints what comes of it. A line of the table has a name, the
// lengths of the line, mark and step tables to lend, and the sheet's bytes in hexadecimal.
#![tactic(auto)]

use anyhow::Context;
use onepath::{Step, convert};
use sheet::{Fault, Line, Refused};
use std::alloc::{AllocError, Global};
use std::io;

// The table lengths and the sheet of a case.
#[derive(Drop)]
struct Case {
    lines: usize,
    marks: usize,
    steps: usize,
    bytes: Vec<u8>,
}

// The words after a case's name.
fn read_case(heap: Global, text: &str) -> anyhow::Result<Case> {
    let mut words = text.split_whitespace();
    let lines = words.next().context("no line table")?.parse::<usize>()?;
    let marks = words.next().context("no mark table")?.parse::<usize>()?;
    let steps = words.next().context("no step table")?.parse::<usize>()?;
    // The sheet's bytes. `run_cases` reads them by the same chain; a function for it would be no shorter.
    let bytes = words
        .map(|word| -> anyhow::Result<u8> { Ok(u8::from_str_radix(word, 16)?) })
        .try_collect::<Vec<u8>>(heap)?;
    Ok(Case {
        lines,
        marks,
        steps,
        bytes,
    })
}

fn outcome(heap: Global, case: &Case) -> Result<String, AllocError> {
    let mut lines = vec![in heap; Line::Else { partner: 0 }; case.lines]?;
    let mut marks = vec![in heap; false; case.marks]?;
    let mut steps = vec![in heap; Step::Jump { to: 0 }; case.steps]?;
    match convert(case.bytes.as_slice(), &mut lines, &mut marks, &mut steps) {
        Ok(path) => {
            let count = path.steps;
            format!(in heap; "{count} steps")
        }
        Err(fault) => {
            let refused = Refused(fault);
            let layer = fault.layer();
            format!(in heap; "{refused} in {layer}")
        }
    }
}

fn main(rt: HostRuntime) -> anyhow::Result<()> {
    let heap = rt.alloc();
    let table = io::read_to_string(heap, rt.stdin())?;
    // `run_cases` has a loop like this; they read other words.
    for line in table.lines() {
        let (name, rest) = line.split_once(' ').context("no case")?;
        let case = read_case(heap, rest)?;
        let result = outcome(heap, &case)?;
        println!(rt; "{name}: {result}")?;
    }
    Ok(())
}
