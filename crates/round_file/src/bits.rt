ghost use Rattle.std.specs.Prelude.{◌≡◌, ◌+◌, ◌*◌, ◌^◌, ◌<◌, ◌≤◌, length};
ghost use Rattle.round_file.specs.Bits.{bit, field, Octets};

// Bit i of the bytes, the most significant of each byte first.
#[tactic(auto, unfolding(crate::specs::Bits::bit))]
fn bit_at(bytes: &[u8], i: usize) -> u32
    requires { i < 8 * length bytes.now }
    ensures value { result ≡ bit bytes.now i }
    ensures small { result < 2 }
{
    ((bytes[i / 8] >> (7 - i % 8)) % 2) as u32
}

// The number that `width` bits write, from bit `at` on, in the fixed part of a header or record.
#[tactic(auto, unfolding(crate::specs::Bits::field))]
pub fn field_at(fixed: &[u8], at: usize, width: usize) -> u32
    requires { (at + width ≤ 8 * length fixed.now) × ((length fixed.now ≤ 10) × (width ≤ 20)) }
    ensures value { result ≡ field fixed.now at width }
    ensures small { result < 2 ^ width }
    ensures octets { Octets fixed.now }
{
    // tried as a `fold`: that each product fits, and what it gives, stayed unproved
    let mut number = 0;
    for i in 0..width {
        number = number * 2 + bit_at(fixed, at + i);
    }
    number
}
