// What the layout promises by itself.
ghost use Rattle.sheet.specs.Reading.{OneProgram};

// Bytes are the layout of one program only.
pub fn one_program_stands() -> u8
    ensures { OneProgram }
{
    0
}
