// Numbers from bytes, least first.
#![tactic(auto)]

ghost use Rattle.std.specs.Prelude.{◌≡◌, ◌+◌, ◌*◌, ◌≤◌, length};
ghost use Rattle.std.specs.Float.{binary64};
ghost use Rattle.std.specs.Float.Ieee.{of_bits};
ghost use Rattle.octets.specs.Octets.{little};

// The readers take a place: what is read is one list of bytes.
pub fn half(s: &[u8], o: usize) -> u32
    requires { o + 4 ≤ length s.now }
    ensures { result ≡ little 4 s.now o }
{
    u32::from_le_bytes([s[o], s[o + 1], s[o + 2], s[o + 3]])
}

pub fn word(s: &[u8], o: usize) -> u64
    requires { o + 8 ≤ length s.now }
    ensures { result ≡ little 8 s.now o }
{
    u64::from_le_bytes([
        s[o],
        s[o + 1],
        s[o + 2],
        s[o + 3],
        s[o + 4],
        s[o + 5],
        s[o + 6],
        s[o + 7],
    ])
}

// The double with these bits; every pattern of a NaN gives the one NaN.
pub fn float_of(bits: u64) -> f64
    ensures { result ≡ of_bits binary64 bits }
{
    if bits % 9223372036854775808 > 9218868437227405312 {
        f64::NAN
    } else {
        f64::from_bits(bits)
    }
}

pub fn double_at(s: &[u8], o: usize) -> f64
    requires { o + 8 ≤ length s.now }
    ensures { result ≡ of_bits binary64 (little 8 s.now o) }
{
    float_of(word(s, o))
}
