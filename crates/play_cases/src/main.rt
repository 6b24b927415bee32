// Plays each text of a table on standard input. A line that begins with `----` is a title: it is printed, and the lines
// up to the next one are a text. What stands before the first title is passed over.
#![tactic(auto)]

use script::respond;
use std::io;

fn print_response(rt: &HostRuntime, text: &str) -> anyhow::Result<()> {
    match respond(rt.alloc(), text.as_bytes()) {
        Ok(response) => rt.print(response)?,
        Err(fault) => println!(rt; "{fault}")?,
    }
    Ok(())
}

fn main(rt: HostRuntime) -> anyhow::Result<()> {
    let heap = rt.alloc();
    let table = io::read_to_string(heap, rt.stdin())?;
    let mut text: Option<String> = None;
    for line in table.lines() {
        if line.starts_with("----") {
            if let Some(text) = text.replace(String::new(heap)) {
                print_response(&rt, text.as_str())?;
            }
            println!(rt; "{line}")?;
        } else if let Some(text) = &mut text {
            text.push_str(line)?;
            text.push('\n')?;
        }
    }
    if let Some(text) = text {
        print_response(&rt, text.as_str())?;
    }
    Ok(())
}
