// Numbers as a hearing by `From`, and which numbers are a hearing (specs/Hearing.antt).
ghost use Rattle.std.specs.Prelude.{◌≡◌};
ghost use Rattle.firmware_layout.specs.Hearing.{kind_number, kind_of, hearing_of, formed};

use crate::FlatHearing;
use crate::flags::{is_bit, is_set};
use frames::{Hearing, Kind};

// Silence 0, noise 1, a master frame 2, a slave frame 3. No `From`, here or below: the numbers are C's, and belong to this crate, of which neither the
// kind nor the number is a type.
pub fn kind_number(k: Kind) -> u16
    ensures { result ≡ kind_number k }
{
    match k {
        Kind::Silence => 0,
        Kind::Noise => 1,
        Kind::Master => 2,
        Kind::Slave => 3,
    }
}

// The kind with this number; silence for any other.
fn kind_of(k: u16) -> Kind
    ensures { result ≡ kind_of k }
{
    match k {
        1 => Kind::Noise,
        2 => Kind::Master,
        3 => Kind::Slave,
        _ => Kind::Silence,
    }
}

impl From<FlatHearing> for Hearing {
    ghost from_gives = { λ f h. h ≡ hearing_of f };

    #[tactic(auto, unfolding(crate::specs::Hearing::hearing_of))]
    fn from(f: FlatHearing) -> Hearing {
        // An array goes over by a variable: the check does not cover one that a literal takes from a field straight.
        let words = f.words;
        let checks = f.checks;
        Hearing {
            kind: kind_of(f.kind),
            words,
            size: f.size as usize,
            checks,
            ends: f.ends as usize,
            sqe: is_set(f.sqe),
            violation: is_set(f.violation),
            alo: is_set(f.alo),
        }
    }
}

impl FlatHearing {
    // A kind and three marks; that it has at most 16 words and 4 check bytes is asked by the call itself.
    #[tactic(auto, unfolding(crate::specs::Hearing::formed))]
    pub fn is_formed(self) -> bool
        ensures { result ≡ formed self }
    {
        self.kind <= 3 && is_bit(self.sqe) && is_bit(self.violation) && is_bit(self.alo)
    }
}
