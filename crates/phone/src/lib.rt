// The phone's check of a sheet, to be called from C.
#![tactic(auto)]

ghost use Rattle.std.specs.Prelude.{◌≡◌};
ghost use Rattle.sheet.specs.Checks.{sheet_fault};
ghost use Rattle.phone.specs.Answers.{answer_of, Sure};

use sheet::{Fault, check};

// 0 for a sheet that can be read, else the number of its first fault plus 256 times the fault's place.
#[unsafe(no_mangle)]
pub extern "C" fn kanduepy_check(bytes: &[u8]) -> u32
    ensures answer { result ≡ answer_of (sheet_fault bytes.now) }
    ensures sure { Sure bytes.now result }
{
    match check(bytes) {
        Ok(_) => 0,
        Err(fault) => fault.number() + 256 * fault.place() as u32,
    }
}
