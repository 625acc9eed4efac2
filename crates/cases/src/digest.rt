// The digest of a list of numbers, those of a book or of a window.
ghost use Rattle.std.specs.Prelude.{◌≡◌, ◌+◌, ◌*◌, ◌%◌};
ghost use Rattle.cases.specs.Digest.{modulus, digest_of};

// A prime, 2^61 - 1.
const MODULUS: u64 = 2_305_843_009_213_693_951;

// One more than the prime, a power of two: 128 bits are divided by it in a shift or two, and by the prime much more slowly.
const POWER: u128 = 2_305_843_009_213_693_952;

// The digest with a number more, in 128 bits: 31 times a digest does not fit 64. By the prime, POWER leaves 1, so each of its multiples
// counts as 1.
fn with_number(digest: u64, n: u64) -> u64
    ensures { result ≡ (31 * digest + n) % modulus }
{
    let sum = 31 * u128::from(digest) + u128::from(n);
    (sum % POWER + sum / POWER) as u64 % MODULUS
}

// The digest with more numbers taken into it, from the first on. That of no numbers is 0.
pub(crate) fn with_numbers(digest: u64, numbers: &[u64]) -> u64
    ensures { result ≡ digest_of digest numbers.now }
{
    numbers
        .iter()
        .fold(digest, |digest, n| with_number(digest, *n))
}
