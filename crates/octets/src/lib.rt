// Bytes in slices: all of one stored in another, and numbers of four bytes, the lowest first.
#![tactic(auto)]

ghost use Rattle.std.specs.Prelude.{◌≡◌, ◌+◌, ◌≤◌, length};
ghost use Rattle.octets.specs.Stored.{stored};
ghost use Rattle.octets.specs.LittleEndian.{four_bytes, little_endian};

// Stores all of a slice, from a place on.
pub fn put(bytes: &[u8], out: &mut [u8], at: usize)
    requires { at + length bytes.now ≤ length out.old }
    ensures { out.new ≡ stored out.old at bytes.now }
{
    out[at..at + bytes.len()].copy_from_slice(bytes);
}

// The four lowest bytes of a number.
pub fn four_bytes(n: usize) -> [u8; 4]
    ensures { result ≡ four_bytes n }
{
    let [a, b, c, d, ..] = n.to_le_bytes();
    [a, b, c, d]
}

// The number of four bytes.
pub fn little_endian(a: u8, b: u8, c: u8, d: u8) -> usize
    ensures { result ≡ little_endian a b c d }
{
    u32::from_le_bytes([a, b, c, d]) as usize
}
