// Filling the line table of a sheet whose bytes have been checked.
ghost use Rattle.std.specs.Prelude.{◌≡◌, ℕ, ◌+◌, ◌*◌, ◌<◌, ◌≤◌, length, slice_index};
ghost use Rattle.sheet.specs.Code.{Code};
ghost use Rattle.sheet.specs.Kinds.{byte_of};
ghost use Rattle.sheet.specs.Filling.{Begins, FilledFrom, Stepped, line_byte};

use crate::kinds::LineKind;
use crate::lines::Line;

// The number that a literal's line has, the lowest byte first.
fn number(line: [u8; 8]) -> u32
    ensures { result ≡ slice_index line 4 + 256 * slice_index line 5 + 65536 * slice_index line 6 + 16777216 * slice_index line 7 }
{
    u32::from_le_bytes([line[4], line[5], line[6], line[7]])
}

// Fills in the block that begins at line `from`; answers the line after it. The table is lent on from call to call: a
// struct that held it would owe at each that it is still the same table.
#[cycle(fill_block_fill_if_fill_loop)]
pub(crate) fn fill_block(lines: &[[u8; 8]], from: usize, table: &mut [Line]) -> usize
    requires code { (c : Code) × Begins lines.now from c }
    requires ordered { from ≤ length lines.now }
    requires room { length lines.now ≤ length table.old }
    ensures { FilledFrom lines.now from table.old table.new result }
{
    // A construct takes as many lines as its blocks do, so what fills it in answers where to go on.
    let mut i = from;
    while i < lines.len() {
        let line = lines[i];
        let Ok(kind) = LineKind::try_from(line[0]) else {
            return i;
        };
        match kind {
            LineKind::Work => {
                table[i] = Line::Work {
                    target: line[1],
                    op: line[2],
                    a: line[3],
                    b: line[4],
                };
                i += 1;
            }
            LineKind::Literal => {
                table[i] = Line::Literal {
                    target: line[1],
                    number: number(line),
                };
                i += 1;
            }
            LineKind::If => i = fill_if(lines, i, table),
            LineKind::Loop => i = fill_loop(lines, i, table),
            LineKind::Else | LineKind::End => return i,
        }
    }
    i
}

// Fills in the `if` at line `from`; answers the line after its end.
#[cycle(fill_block_fill_if_fill_loop)]
fn fill_if(lines: &[[u8; 8]], from: usize, table: &mut [Line]) -> usize
    requires code { (c : Code) × Begins lines.now from c }
    requires ordered { from < length lines.now }
    requires kind { line_byte lines.now from 0 ≡ byte_of LineKind.If }
    requires room { length lines.now ≤ length table.old }
    ensures { Stepped lines.now from table.old table.new result }
{
    let middle = fill_block(lines, from + 1, table);
    let end = fill_block(lines, middle + 1, table);
    table[from] = Line::If {
        cell: lines[from][1],
        partner: middle,
    };
    table[middle] = Line::Else { partner: end };
    table[end] = Line::End { partner: from };
    end + 1
}

// Fills in the loop at line `from`; answers the line after its end.
#[cycle(fill_block_fill_if_fill_loop)]
fn fill_loop(lines: &[[u8; 8]], from: usize, table: &mut [Line]) -> usize
    requires code { (c : Code) × Begins lines.now from c }
    requires ordered { from < length lines.now }
    requires kind { line_byte lines.now from 0 ≡ byte_of LineKind.Loop }
    requires room { length lines.now ≤ length table.old }
    ensures { Stepped lines.now from table.old table.new result }
{
    let end = fill_block(lines, from + 1, table);
    let line = lines[from];
    table[from] = Line::Loop {
        cell: line[1],
        bound: line[2],
        partner: end,
    };
    table[end] = Line::End { partner: from };
    end + 1
}
