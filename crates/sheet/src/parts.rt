// The parts of a sheet that follow its header.
ghost use Rattle.std.specs.Prelude.{◌≡◌, ◌-◌, ◌/◌, ◌≤◌, length, drop};
ghost use Rattle.std.specs.Simd.{first_chunks};

// The lines from the byte `first` on, eight bytes each.
pub(crate) fn line_bytes(bytes: &[u8], first: usize) -> &[[u8; 8]]
    requires { first ≤ length bytes.now }
    ensures count { length result.now ≡ (length bytes.now - first) / 8 }
    ensures pieces { result.now ≡ first_chunks 8 (length result.now) (drop first bytes.now) }
{
    let (lines, _) = bytes[first..].as_chunks();
    lines
}
