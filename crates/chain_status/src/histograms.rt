//! Times of calls, counted in buckets.
ghost use Rattle.std.specs.Prelude.{◌≡◌, ◌<◌, ◌≤◌, ℕ, ◌+◌, sum, take, length, slice_index};
ghost use Rattle.chain_status.specs.Histograms as histograms;

use std::marker::Model;

/// How many buckets there are.
pub const BUCKETS: usize = 16;

/// The times of calls: how many fell into each of 16 buckets, and their sum, in nanoseconds. The buckets have fixed
/// bounds, from 25 microseconds to 5 seconds, and the last one has none. A count that would pass 2^64 - 1 stays there.
#[derive(Drop)]
pub struct Histogram {
    counts: [u64; BUCKETS],
    sum: u64,
}

impl Model for Histogram {
    ghost use Rattle.chain_status.specs.Histograms.{Times};

    ghost Value = { Times };

    ghost view = { λ h. record { counts = h.counts; sum = h.sum } };
}

/// The bounds of all buckets but the last one, in nanoseconds: what a time in them is at most.
pub fn bounds() -> [u64; 15]
    ensures { result ≡ histograms.bounds }
{
    [
        25_000,
        50_000,
        100_000,
        250_000,
        500_000,
        1_000_000,
        2_500_000,
        5_000_000,
        10_000_000,
        25_000_000,
        50_000_000,
        100_000_000,
        250_000_000,
        1_000_000_000,
        5_000_000_000,
    ]
}

/// The bucket of a time: so many bounds are below it.
pub fn bucket_of(nanoseconds: u64) -> usize
    ensures bucket { result ≡ histograms.bucket_of nanoseconds }
    ensures within { result < 16 }
{
    let bounds = bounds();
    bounds.iter().filter(|bound| **bound < nanoseconds).count()
}

impl Histogram {
    /// No time at all.
    pub fn new() -> Histogram
        ensures { result ≡ histograms.none }
    {
        Histogram {
            counts: [0; BUCKETS],
            sum: 0,
        }
    }

    /// One time more.
    pub fn observe(&mut self, nanoseconds: u64)
        ensures { self.new ≡ histograms.observed self.old nanoseconds }
    {
        count(self.counts.as_mut_slice(), bucket_of(nanoseconds));
        self.sum = self.sum.saturating_add(nanoseconds);
    }

    /// All times of another one too.
    pub fn merge(&mut self, other: &Histogram)
        ensures counts { (k : ℕ) → k < 16 → slice_index self.new.counts k
            ≡ histograms.capped (slice_index self.old.counts k + slice_index other.now.counts k) }
        ensures sum { self.new.sum ≡ histograms.capped (self.old.sum + other.now.sum) }
    {
        add(self.counts.as_mut_slice(), other.counts.as_slice());
        self.sum = self.sum.saturating_add(other.sum);
    }

    /// How many times are in the first buckets, up to this one.
    pub fn at_most(&self, bucket: usize) -> u128
        requires bucket { bucket < 16 }
        ensures { result ≡ sum (take (bucket + 1) self.now.counts) }
    {
        total(&self.counts[..bucket + 1])
    }

    /// The sum of the times, in nanoseconds.
    pub fn sum(&self) -> u64
        ensures { result ≡ self.now.sum }
    {
        self.sum
    }
}

// One more in this place.
fn count(counts: &mut [u64], place: usize)
    requires place { place < length counts.old }
    ensures { counts.new ≡ histograms.counted counts.old place }
{
    counts[place] = counts[place].saturating_add(1);
}

// So many more in each place.
fn add(counts: &mut [u64], others: &[u64])
    requires counts { length counts.old ≡ 16 }
    requires others { length others.now ≡ 16 }
    ensures { (k : ℕ) → k < 16 → slice_index counts.new k
        ≡ histograms.capped (slice_index counts.old k + slice_index others.now k) }
{
    for k in 0..BUCKETS {
        counts[k] = counts[k].saturating_add(others[k]);
    }
}

// All of them.
fn total(counts: &[u64]) -> u128
    requires few { length counts.now ≤ 16 }
    ensures { result ≡ sum counts.now }
{
    let mut total = 0;
    for count in counts {
        total += u128::from(*count);
    }
    total
}
