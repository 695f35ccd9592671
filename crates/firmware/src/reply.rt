// A reply on its way out.
ghost use Rattle.std.specs.Prelude.{◌≡◌, ◌≤◌};
ghost use Rattle.firmware_layout.specs.Hearing.{flat_hearing};

use firmware_layout::FlatHearing;
use firmware_layout::hearing::kind_number;
use frames::Hearing;

// A hearing that has at most 16 words and 4 check bytes, as each of our replies has. No `From`, which could ask for nothing.
pub(crate) fn flat_hearing(h: Hearing) -> FlatHearing
    requires { (h.size ≤ 16) × (h.ends ≤ 4) }
    ensures { result ≡ flat_hearing h }
{
    let words = h.words;
    let checks = h.checks;
    FlatHearing {
        kind: kind_number(h.kind),
        words,
        size: h.size as u16,
        checks,
        ends: h.ends as u16,
        sqe: u16::from(h.sqe),
        violation: u16::from(h.violation),
        alo: u16::from(h.alo),
    }
}
