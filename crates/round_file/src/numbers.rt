ghost use Rattle.std.specs.Prelude.{◌≡◌, ◌<◌, length};
ghost use Rattle.round_file.specs.Bits.{Octets};
ghost use Rattle.round_file.specs.Format.{fixed_of, details_of};

use crate::bits::field_at;
use jobs::RawDetails;

// The numbers of a record's fixed part, as its bits say.
#[derive(Clone, Copy)]
pub struct Numbers {
    pub number: u32,
    pub details: RawDetails,
    pub note: u8,
    ghost small: { details.length < 65536 },
}

impl Numbers {
    // How many bytes they take; the note follows them.
    pub const SIZE: usize = 10;

    pub fn of(fixed: &[u8]) -> Numbers
        requires { length fixed.now ≡ 10 }
        ensures value { (result.number ≡ (fixed_of fixed.now).number) × (result.details ≡ details_of (fixed_of fixed.now)) × (result.note ≡ (fixed_of fixed.now).note) }
        ensures octets { Octets fixed.now }
    {
        let details = RawDetails {
            kind: field_at(fixed, 20, 2),
            from: field_at(fixed, 22, 17),
            width: field_at(fixed, 39, 17),
            length: field_at(fixed, 56, 16),
        };
        Numbers {
            number: field_at(fixed, 0, 20),
            details,
            note: field_at(fixed, 72, 8) as u8,
        }
    }
}
