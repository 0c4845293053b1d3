// Little-endian numbers in bytes, and the whole part of the base-2 logarithm.
// Each function says exactly what it returns or leaves behind, by the
// definitions of specs/.
#![tactic(auto)]

ghost use Rattle.std.specs.Prelude.{◌≡◌, ◌++◌, ◌+◌, ◌≤◌, length, take, drop};
ghost use Rattle.numbers.specs.Bytes.{u16_at, u32_at, i32_at, u16_bytes, u32_bytes};
ghost use Rattle.numbers.specs.Log.{whole_log};

// One call of std's own method each: a trait over the three types would hold these same lines, and each caller would still name the type.
pub fn u16_at(s: &[u8], k: usize) -> u16
    requires { k + 2 ≤ length s.now }
    ensures { result ≡ u16_at s.now k }
{
    u16::from_le_bytes([s[k], s[k + 1]])
}

pub fn u32_at(s: &[u8], k: usize) -> u32
    requires { k + 4 ≤ length s.now }
    ensures { result ≡ u32_at s.now k }
{
    u32::from_le_bytes([s[k], s[k + 1], s[k + 2], s[k + 3]])
}

pub fn i32_at(s: &[u8], k: usize) -> i32
    requires { k + 4 ≤ length s.now }
    ensures { result ≡ i32_at s.now k }
{
    i32::from_le_bytes([s[k], s[k + 1], s[k + 2], s[k + 3]])
}

// And back, for the two types that are written.
pub fn put_u16(b: &mut [u8], k: usize, x: u16)
    requires { k + 2 ≤ length b.old }
    ensures { b.new ≡ take k b.old ++ (u16_bytes x ++ drop (k + 2) b.old) }
{
    b[k..k + 2].copy_from_slice(&x.to_le_bytes());
}

pub fn put_u32(b: &mut [u8], k: usize, x: u32)
    requires { k + 4 ≤ length b.old }
    ensures { b.new ≡ take k b.old ++ (u32_bytes x ++ drop (k + 4) b.old) }
{
    b[k..k + 4].copy_from_slice(&x.to_le_bytes());
}

// The whole part of the base-2 logarithm of x: the place of its highest 1, and
// 0 for 0.
pub fn whole_log(x: u32) -> u32
    ensures { result ≡ whole_log x }
{
    if x == 0 {
        return 0;
    }
    31 - u32::leading_zeros(x)
}
