//! Bytes that go into a buffer.

ghost use Rattle.std.specs.Prelude.{◌≡◌, ◌≤◌, take, length};

/// Copies bytes to the front of a buffer, as many as fit, and gives how many these are.
pub fn copy_front(buf: &mut [u8], bytes: &[u8]) -> usize
    ensures bound { result ≤ length buf.old }
    ensures front { take result buf.new ≡ take (length buf.old) bytes.now }
{
    let len = bytes.len().min(buf.len());
    let (front, _) = bytes.split_at(len);
    buf[..len].copy_from_slice(front);
    len
}
