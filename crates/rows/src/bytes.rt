// Eight bytes of a slice as one word, the first of them its lowest.
ghost use Rattle.std.specs.Prelude.{◌≡◌, ◌+◌, ◌*◌, ◌/◌, ◌%◌, ◌^◌, ◌≤◌, length, get_or};
ghost use Rattle.mesh.specs.Fill.{Filled};
ghost use Rattle.rows.specs.Bytes.{joined};

// Bit 0 of each byte of a word.
pub(crate) const ONES: u64 = 0x0101_0101_0101_0101;

// Eight bytes as one word, and such a word as eight bytes.
pub(crate) fn word(bytes: &[u8], p: usize) -> u64
    requires { p + 8 ≤ length bytes.now }
    ensures { result ≡ joined (λ k. get_or bytes.now (p + k) 0) 8 }
{
    u64::from_le_bytes(bytes[p..p + 8].try_into().unwrap())
}

pub(crate) fn put(x: u64, out: &mut [u8], p: usize)
    requires { p + 8 ≤ length out.old }
    ensures { Filled (λ k. p + k) (λ k. x / 2 ^ (8 * k) % 256) out.old out.new 8 }
{
    out[p..p + 8].copy_from_slice(&x.to_le_bytes());
}
