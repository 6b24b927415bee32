// Runs each sheet of a table on standard input in both its forms and prints what they come to. A line of the table has
// a name, the kind of values, the number of cells, each cell's value, and the sheet's bytes in hexadecimal.
#![tactic(auto)]

use anyhow::{Context, ensure};
use onepath::{Step, convert};
use run::{RunFault, Track, Verdict, judge, path_verdict, run_steps};
use sheet::{Line, Refused};
use std::alloc::{AllocError, Global};
use std::io;
use value::{Candidates, Number, Value};

// The cells and the sheet of a case.
#[derive(Drop)]
struct Case {
    cells: Vec<u32>,
    bytes: Vec<u8>,
}

// The words after a case's name and kind.
fn read_case(heap: Global, text: &str) -> anyhow::Result<Case> {
    let mut words = text.split_whitespace();
    let count = words.next().context("no cells")?.parse::<usize>()?;
    let cells = words
        .by_ref()
        .take(count)
        .map(|word| -> anyhow::Result<u32> { Ok(word.parse::<u32>()?) })
        .try_collect::<Vec<u32>>(heap)?;
    ensure!(cells.len() == count, "a cell is missing");
    // The sheet's bytes. `sheet_cases` reads them by the same chain; a function for it would be no shorter.
    let bytes = words
        .map(|word| -> anyhow::Result<u8> { Ok(u8::from_str_radix(word, 16)?) })
        .try_collect::<Vec<u8>>(heap)?;
    Ok(Case { cells, bytes })
}

fn cells_of<V: Value>(heap: Global, case: &Case) -> Result<Vec<V>, AllocError> {
    case.cells.iter().map(|&n| V::literal(n)).collect(heap)
}

// What the branching run comes to.
fn branching<V: Value>(heap: Global, case: &Case) -> Result<Result<Verdict, RunFault>, AllocError> {
    let mut lines = vec![in heap; Line::Else { partner: 0 }; 512]?;
    let mut cells = cells_of::<V>(heap, case)?;
    Ok(judge(case.bytes.as_slice(), &mut lines, &mut cells))
}

// What the one path comes to, and after how many steps.
fn one_path<V: Value>(heap: Global, case: &Case) -> Result<String, AllocError> {
    let mut lines = vec![in heap; Line::Else { partner: 0 }; 512]?;
    let mut marks = vec![in heap; false; 64]?;
    let mut steps = vec![in heap; Step::Jump { to: 0 }; 1024]?;
    let mut cells = cells_of::<V>(heap, case)?;
    let Ok(path) = convert(case.bytes.as_slice(), &mut lines, &mut marks, &mut steps) else {
        return format!(in heap; "not converted");
    };
    let mut track = Track::new();
    let taken = run_steps(&mut track, &steps[0..path.steps], &mut cells, 4000000000);
    let verdict = path_verdict(&track, &cells, path.sheet.verdict);
    format!(in heap; "{verdict} after {taken} steps")
}

fn both<V: Value>(heap: Global, case: &Case) -> Result<String, AllocError> {
    match branching::<V>(heap, case)? {
        Ok(verdict) => {
            let path = one_path::<V>(heap, case)?;
            format!(in heap; "branching {verdict}, one path {path}")
        }
        Err(fault) => Refused(fault).to_string(heap),
    }
}

fn main(rt: HostRuntime) -> anyhow::Result<()> {
    let heap = rt.alloc();
    let table = io::read_to_string(heap, rt.stdin())?;
    // `sheet_cases` has a loop like this; they read other words.
    for line in table.lines() {
        let (name, rest) = line.split_once(' ').context("no case")?;
        let (kind, rest) = rest.split_once(' ').context("no kind")?;
        let case = read_case(heap, rest)?;
        let result = match kind {
            "numbers" => both::<Number>(heap, &case)?,
            "candidates" => both::<Candidates>(heap, &case)?,
            _ => format!(in heap; "no such kind")?,
        };
        println!(rt; "{name}: {result}")?;
    }
    Ok(())
}
