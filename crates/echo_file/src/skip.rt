// Places in a file: each is compared with what is left, so that no sum overflows.
ghost use Rattle.std.specs.Prelude.{◌≡◌, ◌*◌};
ghost use Rattle.echo_file.specs.Places.{skipped};

// The place after `count` bytes of a file of `len`, or none where the file ends before it.
pub fn skip(len: usize, at: usize, count: usize) -> Option<usize>
    ensures { result ≡ skipped len at count }
{
    if len < at || len - at < count {
        return None;
    }
    Some(at + count)
}

// The place after `count` floats.
pub fn skip_floats(len: usize, at: usize, count: usize) -> Option<usize>
    ensures { result ≡ skipped len at (4 * count) }
{
    if len / 4 < count {
        return None;
    }
    skip(len, at, 4 * count)
}
