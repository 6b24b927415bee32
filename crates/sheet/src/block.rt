// Blocks of lines, gone through construct by construct.
ghost use Rattle.std.specs.Prelude.{◌≤◌, length};
ghost use Rattle.sheet.specs.Spans.{IsCode};

use crate::lines::Line;

// The lines of a line table from `from` up to `to`, which are a block.
#[derive(Clone, Copy)]
pub struct Block<'a> {
    pub lines: &'a [Line],
    pub from: usize,
    pub to: usize,
    ghost ordered: { from ≤ to },
    ghost inside: { to ≤ length lines.now },
    ghost reads: { ∥ IsCode lines.now from to ∥₁ },
}

// What a block is made of: lines that open nothing, and constructs with their blocks. An operation is its number, since
// each kind of values has its own.
#[derive(Clone, Copy)]
pub enum Construct<'a> {
    Work {
        target: u8,
        op: u8,
        a: u8,
        b: u8,
    },
    Literal {
        target: u8,
        number: u32,
    },
    If {
        cell: u8,
        first: Block<'a>,
        second: Block<'a>,
    },
    // `line` is the number of the loop's line.
    Loop {
        line: usize,
        cell: u8,
        bound: u8,
        body: Block<'a>,
    },
}
