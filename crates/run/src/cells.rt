// Cells, by what they mean.
ghost use Rattle.std.specs.Prelude.{◌≡◌, map, slice_set};
ghost use Rattle.run.specs.Values.{kind_of, cell_at, is_true, worked, stated};

use crate::slots::put;
use value::Value;

// The value of a cell; past the last cell the literal 0.
pub fn cell<V: Value>(cells: &[V], x: usize) -> V
    ensures { V.Value.meaning result ≡ cell_at (kind_of V.Value) (map V.Value.meaning cells.now) x }
{
    cells.get(x).copied().unwrap_or(V::literal(0))
}

pub(crate) fn is_true<V: Value>(cells: &[V], x: u8) -> bool
    ensures { result ≡ is_true (kind_of V.Value) (map V.Value.meaning cells.now) x }
{
    cell(cells, x as usize).truth()
}

// Writes a cell; past the last cell nothing.
pub fn write<V: Value>(cells: &mut [V], x: usize, value: V)
    ensures { map V.Value.meaning cells.new ≡ slice_set (map V.Value.meaning cells.old) x (V.Value.meaning value) }
{
    put(cells, x, value);
}

// What a work line does. Its operation is a number, since each kind of values has its own.
pub(crate) fn work<V: Value>(cells: &mut [V], target: u8, op: u8, a: u8, b: u8)
    ensures { map V.Value.meaning cells.new ≡ worked (kind_of V.Value) target op a b (map V.Value.meaning cells.old) }
{
    let value = V::combine(op, cell(cells, a as usize), cell(cells, b as usize));
    write(cells, target as usize, value);
}

// What a literal line does.
pub(crate) fn state<V: Value>(cells: &mut [V], target: u8, number: u32)
    ensures { map V.Value.meaning cells.new ≡ stated (kind_of V.Value) target number (map V.Value.meaning cells.old) }
{
    write(cells, target as usize, V::literal(number));
}
