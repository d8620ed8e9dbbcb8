// The numbers of a raw file: what two octets, the high one first, stand for, and the two octets of a number.
// Byte order is left to the numbers' own methods.
ghost use Rattle.std.specs.Prelude.{◌≡◌, ℕ};
ghost use Rattle.std.specs.Int.{w16, cast_signed, cast_unsigned};
ghost use Rattle.raw.specs.Octets.{number_at, octets_of};

/// A number of 16 bits: a sample (signed) or a word (unsigned).
pub trait RawNumber: Copy + Drop {
    // The value as a number from 0 to 65535, in two's complement where it is signed.
    ghost bits: { Self → ℕ };

    // The value that such a number stands for.
    ghost value: { ℕ → Self };

    /// The number that two octets stand for.
    fn from_octets(octets: [u8; 2]) -> Self
        ensures { result ≡ value (number_at octets 0) };

    /// The two octets of a number, from which it is read again.
    fn octets(self) -> [u8; 2]
        ensures answer { result ≡ octets_of (bits self) }
        ensures back { value (bits self) ≡ self };
}

impl RawNumber for i16 {
    ghost bits = { cast_unsigned w16 };

    ghost value = { cast_signed w16 };

    fn from_octets(octets: [u8; 2]) -> i16 {
        i16::from_be_bytes(octets)
    }

    fn octets(self) -> [u8; 2] {
        i16::to_be_bytes(self)
    }
}

impl RawNumber for u16 {
    ghost bits = { λ n. n };

    ghost value = { λ n. n };

    fn from_octets(octets: [u8; 2]) -> u16 {
        u16::from_be_bytes(octets)
    }

    fn octets(self) -> [u8; 2] {
        u16::to_be_bytes(self)
    }
}
