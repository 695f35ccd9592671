// Document 01, "What callers are told": why a call is refused.
ghost use Rattle.std.specs.Prelude.{◌≡◌};
ghost use Rattle.constants.specs.Refusal.{number, told};

// The refusals by name. A call that is not refused answers `Ok`.
#[derive(Clone, Copy, Debug, PartialEq, Eq)]
pub enum Refusal {
    Area,
    Range,
    NoPort,
    Taken,
    Side,
    Damaged,
}

// The document's number, as C and the port program are told it; 0 is no refusal.
impl From<Refusal> for u16 {
    ghost from_gives = { λ refusal n. n ≡ number refusal };

    fn from(refusal: Refusal) -> u16 {
        match refusal {
            Refusal::Area => 1,
            Refusal::Range => 2,
            Refusal::NoPort => 3,
            Refusal::Taken => 4,
            Refusal::Side => 5,
            Refusal::Damaged => 6,
        }
    }
}

// The number that a call answers: that of its refusal, 0 where it was accepted.
pub fn told<T>(answer: &Result<T, Refusal>) -> u16
    ensures { result ≡ told answer.now }
{
    match answer {
        Ok(_) => 0,
        Err(refusal) => u16::from(*refusal),
    }
}
