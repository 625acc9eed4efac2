// Bytes written into an output.
ghost use Rattle.std.specs.Prelude.{◌≡◌, ◌+◌, ◌≤◌, length};
ghost use Rattle.wire.specs.Lists.{put};

// Writes so many bytes from a place on.
pub(crate) fn put<const N: usize>(out: &mut [u8], at: usize, bytes: [u8; N])
    requires { at + N ≤ length out.old }
    ensures { out.new ≡ put at bytes.entry out.old }
{
    out[at..at + N].copy_from_slice(&bytes);
}
