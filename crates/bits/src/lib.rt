// Bits in bytes, most significant first: a number read from any place, a number put there, and the first bit past a place that must not
// be there, for every input, as the predicates in specs/Promises.antt say. What bits, numbers and bytes have to do with each other is said
// in specs/Bits.antt; the laws beside it serve every packed format.
#![tactic(auto)]

ghost use Rattle.std.specs.Prelude.{◌≡◌, ◌-◌, ◌*◌, ◌/◌, ◌<◌, set};
ghost use Rattle.bits.specs.Bits.{bits, unpack, number};
ghost use Rattle.bits.specs.Promises.{NumberPromise, PutPromise, SurplusPromise};

// A byte, 0 past the end.
fn byte(bytes: &[u8], i: usize) -> u64
    ensures { result ≡ number (unpack bytes.now) (i * 8) 8 }
{
    u64::from(bytes.get(i).copied().unwrap_or(0))
}

// The number in the five bytes from the one on that has bit `at`.
fn around(bytes: &[u8], at: u32) -> u64
    ensures { result ≡ number (unpack bytes.now) (at / 8 * 8) 40 }
{
    let first = (at / 8) as usize;
    let mut value = 0u64;
    for k in 0..5 {
        value = value * 256 + byte(bytes, first + k);
    }
    value
}

// The number in the `width` bits from bit `at` on. A bit past the end counts as 0, and a width over 32 as 32.
pub fn number(bytes: &[u8], at: u32, width: u32) -> u32
    ensures { NumberPromise bytes.now at width result }
{
    let held = width.min(32);
    let rest = 40 - at % 8 - held;
    ((around(bytes, at) >> rest) % (1u64 << held)) as u32
}

// A byte with its bit of weight 2 ^ e set to b.
fn with_bit(x: u8, e: usize, b: bool) -> u8
    requires { e < 8 }
    ensures { bits 8 result ≡ set (bits 8 x) (7 - e) b }
{
    let weight = 1u8 << e;
    if b { x | weight } else { x & !weight }
}

// One bit put at a place; past the end it is dropped. (Not by `get_mut`: what it leaves of a slice a proof knows by its length alone.)
fn put_bit(out: &mut [u8], at: usize, b: bool)
    ensures { unpack out.new ≡ set (unpack out.old) at b }
{
    let i = at / 8;
    if i < out.len() {
        out[i] = with_bit(out[i], 7 - at % 8, b);
    }
}

// The `width` lowest bits of a value put at bit `at`. A bit past the end is dropped, and a width over 32 counts as 32.
pub fn put(out: &mut [u8], at: u32, width: u32, value: u32)
    ensures { PutPromise out.old at width value out.new }
{
    let held = width.min(32);
    for k in 0..held {
        let bit = (value >> (held - 1 - k)) % 2 == 1;
        put_bit(out, at as usize + k as usize, bit);
    }
}

// The first bit from bit `at` on that bytes which end there do not have: one that is 1 up to the end of its byte, or else the first of a
// byte that follows.
pub fn surplus(bytes: &[u8], at: u32) -> Option<u64>
    ensures { SurplusPromise bytes.now at result }
{
    let end = u64::from(at).next_multiple_of(8);
    for bit in u64::from(at)..end {
        if number(bytes, bit as u32, 1) == 1 {
            return Some(bit);
        }
    }
    (end / 8 < bytes.len() as u64).then_some(end)
}
