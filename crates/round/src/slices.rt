// Parts of what is lent.
ghost use Rattle.std.specs.Prelude.{◌≡◌, ◌≤◌, length, take};

// The first `count`, or all if there are fewer.
pub(crate) fn front<T>(items: &[T], count: usize) -> &[T]
    ensures first { result.now ≡ take count items.now }
    ensures few { length result.now ≤ count }
{
    &items[..count.min(items.len())]
}
