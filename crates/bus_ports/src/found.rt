// Our port for a master word: what is sought, once for each event and each reply time that is reached, and then the port that was found, if
// one was.
ghost use Rattle.std.specs.Prelude.{◌≡◌};
ghost use Rattle.model.specs.Calls.{word_of_heard};
ghost use Rattle.bus_ports.specs.Found.{sought_for, sought_by, sink_of, interrupt_at};

use areas::{layout, port};
use constants::{CODE_UNIT, LAST_CODE, Refusal};
use model::Heard;

// What stands open for a master word: a port counts only if it has exactly this word. Only F-codes 0 to 4 have ports.
fn sought_for(index: &[u16], ports: &[u16], w: u16) -> Result<Option<u16>, Refusal>
    ensures { result ≡ sought_for index.now ports.now w }
{
    if LAST_CODE < w / CODE_UNIT {
        return Ok(None);
    }
    match port::seek(index, ports, w % CODE_UNIT)? {
        Some(p) if layout::get_port(ports, p).master == w => Ok(Some(p)),
        _ => Ok(None),
    }
}

// The same of the master word that an event needs the port of, if it does.
pub fn sought_heard(index: &[u16], ports: &[u16], h: Heard) -> Result<Option<u16>, Refusal>
    ensures { result ≡ sought_by index.now ports.now (word_of_heard h) }
{
    match h {
        Heard::Master(w) | Heard::Reply(w, _) => sought_for(index, ports, w),
        Heard::Nothing | Heard::Unsound | Heard::Stray => Ok(None),
    }
}

// And of the master word whose reply time is reached, if one is.
pub fn sought_due(index: &[u16], ports: &[u16], due: Option<u16>) -> Result<Option<u16>, Refusal>
    ensures { result ≡ sought_by index.now ports.now due }
{
    match due {
        Some(w) => sought_for(index, ports, w),
        None => Ok(None),
    }
}

// The port that was found, if it is a sink.
pub fn sink_of(ports: &[u16], found: Option<u16>) -> Option<u16>
    ensures { result ≡ sink_of ports.now found }
{
    match found {
        Some(p) if layout::flags_of(layout::get_flags(ports, p)).sink => Some(p),
        _ => None,
    }
}

// The data transfer interrupt of a sink; 0 where there is none, as the port's word has it, which C lends.
pub fn interrupt_at(ports: &[u16], sink: Option<u16>) -> u16
    ensures { result ≡ interrupt_at ports.now sink }
{
    match sink {
        Some(p) => layout::get_port(ports, p).interrupt,
        None => 0,
    }
}
