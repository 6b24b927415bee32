// The checks of a sheet's bytes, in the order of the refusals.
ghost use Rattle.std.specs.Prelude.{◌≡◌, ℕ, ◌+◌, ◌*◌, ◌^◌, ◌<◌, ◌≤◌, ◌&&◌, List, [], length, Ok, Err, not, zip, position, nat_le, nat_lt};
ghost use Rattle.sheet.specs.Checks.{word_at, header_of, limit_fault, offset_fault, marks_fault, rules_of, obeys, bytes_fault, line_says, lines_fault};
ghost use Rattle.sheet.specs.Parts.{IsLineAt};
ghost use Rattle.sheet.specs.Nests.{opens};
ghost use Rattle.sheet.specs.Results.{found};

use crate::faults::ReadFault;
use crate::headers::Header;
use crate::kinds::LineKind;
use crate::nesting::Nest;
use crate::parts::line_bytes;
use crate::rules::Rule;

// The number that two bytes spell, the lower first.
fn word(bytes: &[u8], at: usize) -> usize
    requires { at + 1 < length bytes.now }
    ensures { result ≡ word_at bytes.now at }
{
    usize::from(u16::from_le_bytes([bytes[at], bytes[at + 1]]))
}

pub(crate) fn header(bytes: &[u8]) -> Header
    requires { 14 ≤ length bytes.now }
    ensures { result ≡ header_of bytes.now }
{
    Header {
        cells: word(bytes, 0),
        marked: word(bytes, 2),
        lines: word(bytes, 4),
        verdict: word(bytes, 6),
    }
}

pub(crate) fn check_limits(h: Header) -> Result<(), ReadFault>
    ensures { found result ≡ limit_fault h }
{
    if h.cells < 1 || h.cells > 64 {
        return Err(ReadFault::Limit { at: 0 });
    }
    if h.marked > h.cells {
        return Err(ReadFault::Limit { at: 2 });
    }
    if h.lines > 512 {
        return Err(ReadFault::Limit { at: 4 });
    }
    if h.verdict >= h.cells {
        return Err(ReadFault::Limit { at: 6 });
    }
    Ok(())
}

pub(crate) fn check_offsets(bytes: &[u8], h: Header) -> Result<(), ReadFault>
    requires whole { 14 ≤ length bytes.now }
    requires limits { (h.marked ≤ 64) × (h.lines ≤ 512) }
    ensures { found result ≡ offset_fault bytes.now h }
{
    let lines_at = 14 + h.marked;
    let end = lines_at + 8 * h.lines;
    if word(bytes, 8) != 14 {
        return Err(ReadFault::Offset { at: 8 });
    }
    if word(bytes, 10) != lines_at {
        return Err(ReadFault::Offset { at: 10 });
    }
    if word(bytes, 12) != end || bytes.len() != end {
        return Err(ReadFault::Offset { at: 12 });
    }
    Ok(())
}

// What each byte of a line of this kind may be, after the byte that names the kind.
fn rules(kind: LineKind) -> [Rule; 7]
    ensures { result ≡ rules_of kind }
{
    use Rule::{Any, Bound, Cell, Operation, Zero};
    match kind {
        LineKind::Work => [Cell, Operation, Cell, Cell, Zero, Zero, Zero],
        LineKind::Literal => [Cell, Zero, Zero, Any, Any, Any, Any],
        LineKind::If => [Cell, Zero, Zero, Zero, Zero, Zero, Zero],
        LineKind::Else | LineKind::End => [Zero; 7],
        LineKind::Loop => [Cell, Bound, Zero, Zero, Zero, Zero, Zero],
    }
}

fn allowed(cells: usize, rule: Rule, b: u8) -> bool
    ensures { result ≡ obeys cells rule b }
{
    match rule {
        Rule::Cell => usize::from(b) < cells,
        Rule::Operation => b <= 7,
        Rule::Bound => 1 <= b,
        Rule::Any => true,
        Rule::Zero => b == 0,
    }
}

// A mark is a cell of the sheet, and lies above the mark before it: at `low` or higher.
fn may_follow(mark: u8, low: usize, cells: usize) -> bool
    ensures { result ≡ (nat_le low mark && nat_lt mark cells) }
{
    let m = usize::from(mark);
    low <= m && m < cells
}

// The marks rise, and each is a cell of the sheet.
pub(crate) fn check_marks(bytes: &[u8], h: Header) -> Result<(), ReadFault>
    requires { 14 + h.marked ≤ length bytes.now }
    ensures { found result ≡ marks_fault h.cells bytes.now 0 14 h.marked }
{
    let mut low = 0;
    for (i, &mark) in bytes[14..14 + h.marked].iter().enumerate() {
        if !may_follow(mark, low, h.cells) {
            return Err(ReadFault::Mark { at: 14 + i });
        }
        low = usize::from(mark) + 1;
    }
    Ok(())
}

// Which of the bytes is the first that its rule does not allow, if there is one.
fn misfit(rules: [Rule; 7], bytes: &[u8], cells: usize) -> Option<usize>
    ensures { result ≡ position (λ p. not (obeys cells p.0 p.1)) (zip rules bytes.now) }
{
    rules
        .iter()
        .zip(bytes)
        .position(|(&rule, &byte)| !allowed(cells, rule, byte))
}

// The bytes after the first of the line at `at` are such as a line of this kind may have.
fn check_bytes(line: &[u8; 8], at: usize, kind: LineKind, cells: usize) -> Result<(), ReadFault>
    requires { at + 8 < 2 ^ 64 }
    ensures { (bs : List ℕ) → IsLineAt bs at line.now → found result ≡ bytes_fault cells bs (at + 1) (rules_of kind) }
{
    match misfit(rules(kind), &line[1..], cells) {
        Some(j) => Err(ReadFault::Byte { at: at + 1 + j }),
        None => Ok(()),
    }
}

// What is open after the line at `at`, where it may stand inside of what is open before it.
fn check_line(line: &[u8; 8], at: usize, cells: usize, nest: Nest) -> Result<Nest, ReadFault>
    requires { at + 8 < 2 ^ 64 }
    ensures { (bs : List ℕ) → IsLineAt bs at line.now → line_says cells bs at (opens nest) ≡ elim result [ Ok next ↦ Ok (opens next) | Err f ↦ Err f ] }
{
    let Ok(kind) = LineKind::try_from(line[0]) else {
        return Err(ReadFault::Byte { at });
    };
    check_bytes(line, at, kind, cells)?;
    nest.past(kind).ok_or(ReadFault::Nesting { at })
}

// Line after line, and nothing is open at the end.
pub(crate) fn check_lines(bytes: &[u8], h: Header) -> Result<(), ReadFault>
    requires { 14 + h.marked + 8 * h.lines ≡ length bytes.now }
    ensures { found result ≡ lines_fault h.cells bytes.now (14 + h.marked) h.lines [] }
{
    let first = 14 + h.marked;
    let lines = line_bytes(bytes, first);
    let mut nest = Nest::new();
    for (i, line) in lines.iter().enumerate() {
        nest = check_line(line, first + 8 * i, h.cells, nest)?;
    }
    if nest.is_empty() {
        Ok(())
    } else {
        Err(ReadFault::Nesting { at: bytes.len() })
    }
}
