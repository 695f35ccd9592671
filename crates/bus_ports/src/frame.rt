// A reply as a line hears it.
ghost use Rattle.std.specs.Prelude.{◌≡◌};
ghost use Rattle.model.specs.Event.{sent};

use areas::store;
use frames::{Hearing, Kind};

// No reply.
pub const SILENT: Hearing = Hearing {
    kind: Kind::Silence,
    words: [0; 16],
    size: 0,
    checks: [0; 4],
    ends: 0,
    sqe: false,
    violation: false,
    alo: false,
};

// A slave frame of these words with its check bytes and no quality mark.
pub fn sent(words: &[u16]) -> Hearing
    ensures { result ≡ sent words.now }
{
    let f = sequence::frame_checks(words);
    let mut copied = [0u16; 16];
    store::copy(&mut copied, 0, words);
    let checks = f.bytes;
    Hearing {
        kind: Kind::Slave,
        words: copied,
        size: words.len(),
        checks,
        ends: f.count,
        ..SILENT
    }
}
