// Greatest common divisor and least common multiple, behind the hyperperiod; the next multiple, with which the quick bound of a pair goes;
// the greatest entry of a row, behind the response of a task; and how far a negative margin is from zero. Each call answers every input, as
// the predicate of its name in specs/Promises.antt says; callers go by the laws in specs/WholeLaws.antt and specs/RangeLaws.antt.
#![tactic(auto)]

ghost use Rattle.arith.specs.Promises.{GcdPromise, LcmPromise, UpPromise, GreatestPromise, MagnitudePromise};

// The greatest common divisor of a and b, by Euclid's rule gone round in place. With 0 it is the other number, and of 0 and 0 it is 0.
pub fn gcd(a: u32, b: u32) -> u32
    ensures { GcdPromise a b result }
{
    let mut divisor = a;
    let mut rest = b;
    while rest != 0 {
        (divisor, rest) = (rest, divisor % rest);
    }
    divisor
}

// The least common multiple of a and b where it is at most the limit; with 0 it is 0.
pub fn lcm(a: u32, b: u32, limit: u32) -> Option<u32>
    ensures { LcmPromise a b limit result }
{
    if a == 0 {
        return Some(0);
    }
    let multiple = (a / gcd(a, b)).checked_mul(b)?;
    (multiple <= limit).then_some(multiple)
}

// The least multiple of the period that is at least x; the only multiple of 0 is 0.
pub fn up(period: u32, x: u32) -> u64
    ensures { UpPromise period x result }
{
    if period == 0 {
        return 0;
    }
    let step = u64::from(period);
    u64::from(x).next_multiple_of(step)
}

// The greatest entry of a row, 0 of none.
pub fn greatest(row: &[u32]) -> u32
    ensures { GreatestPromise row.now result }
{
    let mut most = 0u32;
    for &entry in row {
        most = most.max(entry);
    }
    most
}

// How far a number is from zero.
pub fn magnitude(z: i32) -> u64
    ensures { MagnitudePromise z result }
{
    u64::from(z.unsigned_abs())
}
