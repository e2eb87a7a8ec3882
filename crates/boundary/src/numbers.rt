// The busy fraction, the densities and the centre of a channel (document 01, "Replies" and "Numbers that hold").
ghost use Rattle.std.specs.Prelude.{◌≡◌, ◌∷◌, []};
ghost use Rattle.channel.specs.Centres.{centre_of};
ghost use Rattle.fraction.specs.Fractions.{busy_of, densities_of};
ghost use Rattle.boundary.specs.Codes.{code_of, Given};

use crate::codes;

#[unsafe(no_mangle)]
pub extern "C" fn oneiralth_centre(channel: u8) -> u64
    ensures { result ≡ code_of (centre_of channel) }
{
    codes::wrote(channel::centre(channel).map(usize::from))
}

#[unsafe(no_mangle)]
pub extern "C" fn oneiralth_busy_fraction(busy: u32, duration: u16) -> u64
    ensures { result ≡ code_of (busy_of duration busy) }
{
    codes::wrote(fraction::busy_fraction(busy, duration).map(usize::from))
}

// Eight times in µs; the eight densities come out as eight octets.
#[unsafe(no_mangle)]
pub extern "C" fn oneiralth_rpi_densities(
    t0: u32,
    t1: u32,
    t2: u32,
    t3: u32,
    t4: u32,
    t5: u32,
    t6: u32,
    t7: u32,
    duration: u16,
    out: &mut [u8],
) -> u64
    ensures { Given (densities_of duration (t0 ∷ t1 ∷ t2 ∷ t3 ∷ t4 ∷ t5 ∷ t6 ∷ t7 ∷ [])) out.old result out.new }
{
    match fraction::rpi_densities([t0, t1, t2, t3, t4, t5, t6, t7], duration) {
        Err(refusal) => codes::refused(refusal),
        Ok(densities) => codes::given(&densities, out),
    }
}
