// Plays the text on standard input and prints what each call is answered.
#![tactic(auto)]

use report::read_all;
use script::respond;

fn play(rt: &HostRuntime) -> anyhow::Result<()> {
    let heap = rt.alloc();
    let text = read_all(heap, rt.stdin())?;
    rt.print(respond(heap, text.as_slice())?)?;
    Ok(())
}

fn main(rt: HostRuntime) -> anyhow::Result<()> {
    let played = play(&rt);
    if let Err(fault) = &played {
        eprintln!(rt; "{fault}")?;
    }
    played
}
