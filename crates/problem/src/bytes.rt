// Two-byte numbers of a problem, and bytes put into a lent buffer.
ghost use Rattle.std.specs.Prelude.{◌≡◌, ◌+◌, ◌<◌, ◌≤◌, length};
ghost use Rattle.definitions.specs.Bytes.{two_at};
ghost use Rattle.definitions.specs.Operations.Buffers.{over};

pub fn two_at(s: &[u8], i: usize) -> usize
    requires { i + 1 < length s.now }
    ensures { (result ≡ two_at s.now i) × (result < 65536) }
{
    usize::from(u16::from_le_bytes([s[i], s[i + 1]]))
}

// Bytes go to the start of a lent tail, and the rest stays as it was.
pub fn put(tail: &mut [u8], bytes: &[u8])
    requires { length bytes.now ≤ length tail.old }
    ensures { tail.new ≡ over bytes.now tail.old }
{
    tail[..bytes.len()].copy_from_slice(bytes);
}
