// Milliseconds (document 02, W-205): how many end within n quiet bit times, and the phase after them, at once.
ghost use Rattle.std.specs.Prelude.{◌≡◌, ◌+◌};
ghost use Rattle.model.specs.Grown.{phase_reached, ends_within, phase_after};
ghost use Rattle.bus_quiet.specs.Phase.{phased};

use constants::MILLISECOND;
use model::Controller;

// The bit times of the millisecond that runs, n bit times later, did it not end: its last is reached by any phase at or above 1499.
fn phase_counted(n: u32, p: u16) -> u64
    ensures { result ≡ phase_reached p + n }
{
    p.min(MILLISECOND - 1) as u64 + n as u64
}

// The milliseconds that end within n bit times from the phase p on.
pub fn ends_within(n: u32, p: u16) -> u32
    ensures { result ≡ ends_within p n }
{
    (phase_counted(n, p) / MILLISECOND as u64) as u32
}

// The phase after them: where no millisecond ends it is n further, else it is what is left over.
fn phase_after(n: u32, p: u16) -> u16
    ensures { result ≡ phase_after p n }
{
    if ends_within(n, p) == 0 {
        p + n as u16
    } else {
        (phase_counted(n, p) % MILLISECOND as u64) as u16
    }
}

// The controller with this phase.
pub fn phase_later(n: u32, c: Controller) -> Controller
    ensures { result ≡ phased n c }
{
    Controller {
        phase: phase_after(n, c.phase),
        ..c
    }
}
