// Digests of bytes and numbers: FNV-1a over words of 64 bits.
ghost use Rattle.std.specs.Prelude.{◌≡◌, ℕ, map};
ghost use Rattle.lines.specs.Digest.{start, mixed, digest};

// Of nothing.
pub const START: u64 = 14_695_981_039_346_656_037;

const PRIME: u64 = 1_099_511_628_211;

// The digest d with one number more.
#[tactic(auto, unfolding(crate::specs::Digest::mixed))]
pub fn mix(d: u64, v: u64) -> u64
    ensures { result ≡ mixed d v }
{
    (d ^ v).wrapping_mul(PRIME)
}

#[tactic(auto, unfolding(crate::specs::Digest::digest))]
pub fn digest_of<T: Copy + Into<u64>>(values: &[T]) -> u64
    ensures { (number : T → ℕ) → ((x : T) (n : ℕ) → T.converts x n → n ≡ number x)
        → result ≡ digest start (map number values.now) }
{
    let mut d = START;
    for v in values {
        d = mix(d, (*v).into());
    }
    d
}
