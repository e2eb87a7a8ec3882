// Octets that hold a signed number, by two's complement.
ghost use Rattle.std.specs.Prelude.{◌≡◌};
ghost use Rattle.octets.specs.Signed.{signed_of, octet_of};

// The signed number that an octet holds.
pub fn to_signed(octet: u8) -> i8
    ensures { result ≡ signed_of octet }
{
    octet.cast_signed()
}

// The octet that holds a signed number.
pub fn from_signed(x: i8) -> u8
    ensures { result ≡ octet_of x }
{
    x.cast_unsigned()
}
