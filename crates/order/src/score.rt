// Activities as numbers with an exponent, since each conflict counts for more than the one before it.
// The exponent is the high byte of a word and the mantissa the rest of it, with its top bit set, so
// that activities compare as plain words. The word 0 is zero.
ghost use Rattle.std.specs.Prelude.{◌≡◌, ◌^◌, ◌<◌, ◌≤◌};
ghost use Rattle.order.specs.Scores.{Score, Raised, Lowered};

// One more of the exponent: mantissas are below it.
const EXPONENT: u32 = 0x0100_0000;
// How many bits a mantissa has: it is moved by fewer, or nothing is left of it.
const MANTISSA_BITS: u32 = 24;
// What shrinking takes off: 128 of the exponent.
const SHRINK: u32 = 0x8000_0000;

// The activity with so much more in its mantissa: a carry halves it and makes the exponent one more.
// A sum that would pass the largest word stops there.
fn raised(score: u32, more: u32) -> u32
    requires formed { Score score }
    requires small { more < 2 ^ 24 }
    requires zero { score ≡ 0 → more ≡ 0 }
    ensures { Raised score result }
{
    let exponent = score / EXPONENT;
    let mantissa = score % EXPONENT + more;
    if mantissa < EXPONENT {
        score + more
    } else if exponent == u32::MAX / EXPONENT {
        u32::MAX
    } else {
        (exponent + 1) * EXPONENT + mantissa / 2
    }
}

// The sum of two activities, of which the second is not the higher: its mantissa is moved to where
// the exponent of the first has it.
fn added(high: u32, low: u32) -> u32
    requires { (Score high) × (low ≤ high) }
    ensures { Raised high result }
{
    let gap = high / EXPONENT - low / EXPONENT;
    if gap < MANTISSA_BITS {
        raised(high, (low % EXPONENT) >> gap)
    } else {
        high
    }
}

// The sum of two activities: at least as high as each.
pub fn sum(one: u32, other: u32) -> u32
    requires { (Score one) × (Score other) }
    ensures { (Raised one result) × (Raised other result) }
{
    added(one.max(other), one.min(other))
}

// The activity and a part of it more: times 1 + 1 / part.
pub fn grown(score: u32, part: u32) -> u32
    requires { (Score score) × (0 < part) }
    ensures { Raised score result }
{
    raised(score, score % EXPONENT / part)
}

// The activity divided by 2^128, and zero where it is too low for that.
pub fn shrunk(score: u32) -> u32
    requires { Score score }
    ensures { Lowered score result }
{
    if score < SHRINK { 0 } else { score - SHRINK }
}
