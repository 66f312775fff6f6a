// The fields of a record of 16 bytes, numbers little-endian.
ghost use Rattle.std.specs.Prelude.{◌≡◌, ◌+◌, ◌<◌, length};
ghost use Rattle.rules.specs.File.{half_at, word_at};

/// The number in bytes i and i + 1.
pub fn half_at(r: &[u8], i: usize) -> u16
    requires { i + 1 < length r.now }
    ensures { result ≡ half_at r.now i }
{
    u16::from_le_bytes([r[i], r[i + 1]])
}

/// The number in bytes i to i + 3.
pub fn word_at(r: &[u8], i: usize) -> u32
    requires { i + 3 < length r.now }
    ensures { result ≡ word_at r.now i }
{
    u32::from_le_bytes([r[i], r[i + 1], r[i + 2], r[i + 3]])
}
