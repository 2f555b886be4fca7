// The fields of a record as bytes, read (01 "The month file"): "Numbers are big-endian; net supply and price are two's complement."
ghost use Rattle.std.specs.Prelude.{◌≡◌, ◌+◌, ◌≤◌, length, take, drop};
ghost use Rattle.rules.specs.Record.{number_onto, signed};

// The bytes of a field, from a place on.
fn bytes_at<const N: usize>(s: &[u8], at: usize) -> [u8; N]
    requires { at + N ≤ length s.now }
    ensures { result ≡ take N (drop at s.now) }
{
    s[at..at + N].try_into().unwrap()
}

// The number that stands there, in one byte, two, four or eight.
pub fn u8_at(s: &[u8], at: usize) -> u8
    requires { at + 1 ≤ length s.now }
    ensures { result ≡ number_onto 0 (take 1 (drop at s.now)) }
{
    s[at]
}

pub fn u16_at(s: &[u8], at: usize) -> u16
    requires { at + 2 ≤ length s.now }
    ensures { result ≡ number_onto 0 (take 2 (drop at s.now)) }
{
    u16::from_be_bytes(bytes_at(s, at))
}

pub fn u32_at(s: &[u8], at: usize) -> u32
    requires { at + 4 ≤ length s.now }
    ensures { result ≡ number_onto 0 (take 4 (drop at s.now)) }
{
    u32::from_be_bytes(bytes_at(s, at))
}

pub fn u64_at(s: &[u8], at: usize) -> u64
    requires { at + 8 ≤ length s.now }
    ensures { result ≡ number_onto 0 (take 8 (drop at s.now)) }
{
    u64::from_be_bytes(bytes_at(s, at))
}

// The same in two's complement, in four bytes or eight.
pub fn i32_at(s: &[u8], at: usize) -> i32
    requires { at + 4 ≤ length s.now }
    ensures { result ≡ signed 4 (number_onto 0 (take 4 (drop at s.now))) }
{
    i32::from_be_bytes(bytes_at(s, at))
}

pub fn i64_at(s: &[u8], at: usize) -> i64
    requires { at + 8 ≤ length s.now }
    ensures { result ≡ signed 8 (number_onto 0 (take 8 (drop at s.now))) }
{
    i64::from_be_bytes(bytes_at(s, at))
}
