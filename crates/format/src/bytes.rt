// Numbers in bytes, low byte first, and signed numbers in two's complement. Internal.
ghost use Rattle.std.specs.Prelude.{◌≡◌, ◌+◌, ◌<◌, length};
ghost use Rattle.format.specs.Format.{digit, packed, unsigned};
ghost use Rattle.format.specs.Held.{two, four, signed};

// The number in two bytes.
pub fn two(bytes: &[u8], at: usize) -> usize
    requires { at + 1 < length bytes.now }
    ensures { (result ≡ two bytes.now at) × (result < 65536) }
{
    usize::from(u16::from_le_bytes([bytes[at], bytes[at + 1]]))
}

// The number in four bytes.
pub fn four(bytes: &[u8], at: usize) -> u32
    requires { at + 3 < length bytes.now }
    ensures { result ≡ four bytes.now at }
{
    u32::from_le_bytes([bytes[at], bytes[at + 1], bytes[at + 2], bytes[at + 3]])
}

// Byte d of a number of at most four bytes.
pub fn digit(x: usize, d: usize) -> u8
    requires { d < 4 }
    ensures { result ≡ digit x d }
{
    x.to_le_bytes()[d]
}

// A number of four bytes as a signed one.
pub fn signed(n: u32) -> i32
    ensures { result ≡ signed n }
{
    n.cast_signed()
}

// A signed number as one of four bytes.
pub fn unsigned(z: i32) -> u32
    ensures { result ≡ unsigned z }
{
    z.cast_unsigned()
}

// Byte i of six: two numbers of one byte each, then two of two bytes each.
pub fn packed(a: usize, b: usize, c: usize, d: usize, i: usize) -> u8
    requires { (a < 256) × (b < 256) × (i < 6) }
    ensures { result ≡ packed a b c d i }
{
    match i {
        0 => a as u8,
        1 => b as u8,
        2 | 3 => digit(c, i - 2),
        _ => digit(d, i - 4),
    }
}
