// What a measurement of types 0 to 2 found (7.3.2.22.1 to 7.3.2.22.3), after its span.
ghost use Rattle.std.specs.Prelude.{◌≡◌};
ghost use Rattle.measurement_element.specs.CodeTerms.Built.{found_octet};
ghost use Rattle.measurement_element.specs.Found.{found_by, found_size, found_forbids, found_agrees, found_clear};

// The types over this one are reserved: 0 is basic, 1 CCA and 2 RPI.
pub(crate) const HIGHEST_KIND: u8 = 2;

// A map, whose bits 0 to 4 are BSS, OFDM preamble, unidentified signal, radar and unmeasured; a busy fraction; or eight densities, which stand
// beside it: a report that has them and is no histogram is refused, which a type that holds them here would not take.
#[derive(Clone, Copy)]
pub enum Found {
    Map(u8),
    Busy(u8),
    Densities,
}

impl Found {
    // By the type, 0 to 2, and the first octet after the span; reserved bits of a map are ignored.
    pub(crate) fn by(kind: u8, octet: u8) -> Found
        ensures { result ≡ found_by kind octet }
    {
        match kind {
            0 => Found::Map(octet % 32),
            1 => Found::Busy(octet),
            _ => Found::Densities,
        }
    }

    // How many octets the contents have.
    pub(crate) fn size(self) -> u8
        ensures { result ≡ found_size self }
    {
        match self {
            Found::Map(_) | Found::Busy(_) => 15,
            Found::Densities => 22,
        }
    }

    // The map says unmeasured, and shows something all the same.
    pub(crate) fn is_forbidden(self) -> bool
        ensures { result ≡ found_forbids self }
    {
        match self {
            Found::Map(map) => map / 16 % 2 == 1 && map % 16 != 0,
            _ => false,
        }
    }

    // Whether a measurement of this type finds this; the map's bits 5 to 7 are reserved.
    pub(crate) fn agrees(self, kind: u8) -> bool
        ensures { result ≡ found_agrees self kind }
    {
        match self {
            Found::Map(map) => kind == 0 && map < 32,
            Found::Busy(_) => kind == 1,
            Found::Densities => kind == 2,
        }
    }

    // Whether the octet after the span has no reserved bit set.
    pub(crate) fn is_clear(self, octet: u8) -> bool
        ensures { result ≡ found_clear self octet }
    {
        match self {
            Found::Map(_) => octet < 32,
            _ => true,
        }
    }

    // The octet after the span: the map, the busy fraction or the first density.
    pub(crate) fn octet(self, density: u8) -> u8
        ensures { result ≡ found_octet self density }
    {
        match self {
            Found::Map(map) => map,
            Found::Busy(fraction) => fraction,
            Found::Densities => density,
        }
    }
}
