// A text of calls, read and played, and the text that it is answered with.
#![tactic(auto)]

ghost use Rattle.std.specs.Prelude.{◌≡◌, Err, OnOk};
ghost use Rattle.std.specs.Str.{IsUtf8};
ghost use Rattle.script.specs.Faults.{not_text};

mod faults;
mod headings;
mod playing;
mod reading;
mod telling;
mod words;

pub use faults::{Expected, ScriptFault, TextFault};
pub use headings::Heading;
use playing::play_script;
use reading::read_script;
use std::alloc::Global;

// Reads a text, plays its calls and answers the lines to print.
pub fn respond(heap: Global, text: &[u8]) -> Result<String, ScriptFault>
    ensures text { OnOk result (IsUtf8 text.now) }
    ensures no_text { ¬ (IsUtf8 text.now) → result ≡ Err (not_text text.now) }
{
    let script = read_script(heap, text)?;
    Ok(play_script(heap, &script)?)
}
