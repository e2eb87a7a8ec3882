// The busy fraction and the eight RPI densities (document 01, "Replies"; 802.11h 7.3.2.22.2 and 7.3.2.22.3).
#![tactic(auto)]

ghost use Rattle.std.specs.Prelude.{◌≡◌, ℕ, ◌*◌, ◌<◌, ◌≤◌, IfOk, map, get_or};
ghost use Rattle.octets.specs.Sums.{sum_of};
ghost use Rattle.fraction.specs.Fractions.{possible, fraction_of, busy_of, densities_of};

use answer::Refusal;

// Whether times of this sum can have been measured within a duration.
#[tactic(auto, unfolding(crate::specs::Fractions::possible))]
fn is_possible(sum: u64, duration: u16) -> bool
    ensures { result ≡ possible duration sum }
{
    duration > 0 && sum <= 1024 * u64::from(duration)
}

// The ceiling of 255 times a time over a duration.
#[tactic(auto, unfolding(crate::specs::Fractions::ceiling, crate::specs::Fractions::fraction_of))]
fn share(time: u32, duration: u16) -> u8
    requires { (0 < duration) × (time ≤ 1024 * duration) }
    ensures { result ≡ fraction_of duration time }
{
    let whole = 1024 * u64::from(duration);
    (255 * u64::from(time)).div_ceil(whole) as u8
}

// The busy fraction of a time in µs within a duration in TU.
#[tactic(auto, unfolding(crate::specs::Fractions::possible, crate::specs::Fractions::busy_of, answer::specs::Checks::checked))]
pub fn busy_fraction(time: u32, duration: u16) -> Result<u8, Refusal>
    ensures { result ≡ busy_of duration time }
{
    if !is_possible(u64::from(time), duration) {
        return Err(Refusal::Impossible);
    }
    Ok(share(time, duration))
}

// The sum of the times, which no eight numbers of 32 bits make wrap.
fn total(times: [u32; 8]) -> u64
    ensures { result ≡ sum_of times }
{
    times.iter().map(|time| u64::from(*time)).sum()
}

// The share of each of the times.
fn shares(times: [u32; 8], duration: u16) -> [u8; 8]
    requires { (0 < duration) × ((i : ℕ) → get_or times i 0 ≤ 1024 * duration) }
    ensures { result ≡ map (fraction_of duration) times }
{
    times.map(|time| share(time, duration))
}

// The eight densities together, of eight times in µs within a duration in TU.
#[tactic(auto, unfolding(crate::specs::Fractions::possible, crate::specs::Fractions::densities_of, answer::specs::Checks::checked), using(crate::proofs::SumBound::bounds))]
pub fn rpi_densities(times: [u32; 8], duration: u16) -> Result<[u8; 8], Refusal>
    ensures value { result ≡ densities_of duration times }
    ensures values_bound { IfOk result (λ values. sum_of values ≤ 262) }
{
    if !is_possible(total(times), duration) {
        return Err(Refusal::Impossible);
    }
    Ok(shares(times, duration))
}
