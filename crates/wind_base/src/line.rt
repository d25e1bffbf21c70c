//! Lines of bytes.

ghost use Rattle.std.specs.Prelude.{◌≡◌, ◌≤◌, ◌+◌, length, take, drop};
ghost use Rattle.wind_base.specs.Lines.{line_length};

/// The number of bytes before the first 0x0A, or the length of `bytes` if there is no 0x0A.
pub fn line_len(bytes: &[u8]) -> usize
    ensures exact { result ≡ line_length bytes.now }
    ensures inside { result ≤ length bytes.now }
{
    bytes.iter().take_while(|byte| **byte != b'\n').count()
}

/// The first `most` bytes, or all of them if there are fewer.
pub fn first_bytes(bytes: &[u8], most: usize) -> &[u8]
    ensures value { result.now ≡ take most bytes.now }
    ensures within { length result.now ≤ most }
{
    if bytes.len() <= most {
        bytes
    } else {
        &bytes[..most]
    }
}

/// The bytes after the first `n`. `bytes` has at least `n` of them.
pub fn bytes_after(bytes: &[u8], n: usize) -> &[u8]
    requires { n ≤ length bytes.now }
    ensures value { result.now ≡ drop n bytes.now }
    ensures len { length result.now + n ≡ length bytes.now }
{
    &bytes[n..]
}
