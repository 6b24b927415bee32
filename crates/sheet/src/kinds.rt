// The kinds of lines, and the bytes that name them.
ghost use Rattle.std.specs.Prelude.{◌≡◌};
ghost use Rattle.std.specs.Result.{result_ok};
ghost use Rattle.sheet.specs.Kinds.{kind_of};

#[derive(Clone, Copy)]
pub enum LineKind {
    Work,
    Literal,
    If,
    Else,
    End,
    Loop,
}

// A byte that names no kind of line.
#[derive(Clone, Copy)]
pub struct NoKind;

impl TryFrom<u8> for LineKind {
    type Error = NoKind;

    ghost try_from_gives = { λ byte r. result_ok r ≡ kind_of byte };

    fn try_from(byte: u8) -> Result<LineKind, NoKind> {
        match byte {
            1 => Ok(LineKind::Work),
            2 => Ok(LineKind::Literal),
            3 => Ok(LineKind::If),
            4 => Ok(LineKind::Else),
            5 => Ok(LineKind::End),
            6 => Ok(LineKind::Loop),
            _ => Err(NoKind),
        }
    }
}
