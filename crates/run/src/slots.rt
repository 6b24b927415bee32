// Writing a place that may not be there.
ghost use Rattle.std.specs.Prelude.{◌≡◌, slice_set};

// Writes x at i; past the end nothing. Not through `get_mut`, whose contract does not say what the slice ends as.
pub fn put<T: Copy>(xs: &mut [T], i: usize, x: T)
    ensures { xs.new ≡ slice_set xs.old i x }
{
    if i < xs.len() {
        xs[i] = x;
    }
}
