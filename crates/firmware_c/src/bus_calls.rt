// The calls of the module `bus_calls` of `firmware`, for C. Written by firmware/make.py.
ghost use Rattle.std.specs.Prelude.{◌≡◌, ◌&&◌};
ghost use Rattle.model.specs.Layout.{areas};
ghost use Rattle.model.specs.Calls.{hear, quiet};
ghost use Rattle.firmware_layout.specs.Controller.{ours};
ghost use Rattle.firmware_layout.specs.Hearing.{hearing_of, formed};
ghost use Rattle.firmware.specs.Promise.{leaves, through, flat_checks};

use firmware::{FlatAnswered, FlatChecks};
use firmware_layout::{FlatController, FlatHearing};

// A bus event: what line A and what line B heard.
#[unsafe(no_mangle)]
pub extern "C" fn tolvendrum_hear(
    index: &[u16],
    ports: &mut [u16],
    page0: &mut [u16],
    page1: &mut [u16],
    c: FlatController,
    a: FlatHearing,
    b: FlatHearing,
) -> FlatAnswered
    ensures { leaves (areas index.now ports.new page0.new page1.new) result ≡
        through (ours c && formed a && formed b) (hear (hearing_of a) (hearing_of b)) c
        (areas index.now ports.old page0.old page1.old) }
{
    firmware::bus_calls::tolvendrum_hear(index, ports, page0, page1, c, a, b)
}

// Quiet bit times, n of them.
#[unsafe(no_mangle)]
pub extern "C" fn tolvendrum_quiet(
    index: &[u16],
    ports: &mut [u16],
    page0: &[u16],
    page1: &[u16],
    c: FlatController,
    n: u32,
) -> FlatAnswered
    ensures { leaves (areas index.now ports.new page0.now page1.now) result ≡
        through (ours c) (quiet n) c (areas index.now ports.old page0.now page1.now) }
{
    firmware::bus_calls::tolvendrum_quiet(index, ports, page0, page1, c, n)
}

// The check bytes of a frame.
#[unsafe(no_mangle)]
pub extern "C" fn tolvendrum_checks(words: &[u16]) -> FlatChecks
    ensures { result ≡ flat_checks words.now }
{
    firmware::bus_calls::tolvendrum_checks(words)
}
