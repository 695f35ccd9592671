// The refusals of the host's calls (document 01, "What callers are told"): the first test in the document's order that holds refuses.
ghost use Rattle.std.specs.Prelude.{◌≡◌, [], get_or, IfOk};
ghost use Rattle.constants.specs.Refusal.{told};
ghost use Rattle.model.specs.Layout.{areas, tables_fit, areas_fit};
ghost use Rattle.model.specs.Calls.{open_out};
ghost use Rattle.areas.specs.Lent.{lent};
ghost use Rattle.host_ports.specs.Host.{open_refusal, reached, write_refusal};

use areas::{layout, port};
use constants::{CODE_UNIT, LAST_ADDRESS, LAST_CODE, LAST_INTERRUPT, LAST_PORT, Refusal};

// An argument of an opening is out of range.
fn open_out(a: u16, p: u16, code: u16, interrupt: u16) -> bool
    ensures { result ≡ open_out a p code interrupt }
{
    LAST_ADDRESS < a || p == 0 || LAST_PORT < p || LAST_CODE < code || LAST_INTERRUPT < interrupt
}

// Opening: an area, an argument, the entry, and whether the address or the port is taken.
pub fn of_open(
    index: &[u16],
    ports: &[u16],
    page0: &[u16],
    page1: &[u16],
    a: u16,
    p: u16,
    code: u16,
    interrupt: u16,
) -> Result<(), Refusal>
    ensures { told result ≡ open_refusal (lent index.entry ports.entry page0.entry page1.entry) a p code interrupt }
{
    if !layout::fits(index, ports, page0, page1) {
        return Err(Refusal::Area);
    }
    if open_out(a, p, code, interrupt) {
        return Err(Refusal::Range);
    }
    // 0 is no port, here and in `reach`: so the index table has it, which C lends.
    let e = layout::get(index, a as usize);
    if LAST_PORT < e {
        return Err(Refusal::Damaged);
    }
    let flags = layout::get_flags(ports, p);
    if e != 0 || flags != 0 {
        return Err(Refusal::Taken);
    }
    Ok(())
}

// What needs a port, and finds its number: the areas that the call is lent have to fit, then the address, the entry, and the port words.
fn reach(fit: bool, index: &[u16], ports: &[u16], a: u16) -> Result<u16, Refusal>
    ensures number { told result ≡ reached fit (areas index.now ports.now [] []) a 0 }
    ensures port { IfOk result (λ p. p ≡ get_or index.now a 0) }
{
    if !fit {
        return Err(Refusal::Area);
    }
    if LAST_ADDRESS < a {
        return Err(Refusal::Range);
    }
    let e = layout::get(index, a as usize);
    if LAST_PORT < e {
        return Err(Refusal::Damaged);
    }
    if e == 0 {
        return Err(Refusal::NoPort);
    }
    if !port::well_formed(a, layout::get_port(ports, e)) {
        return Err(Refusal::Damaged);
    }
    Ok(e)
}

// Closing: what needs a port, over all four areas, and nothing more.
pub fn of_close(
    index: &[u16],
    ports: &[u16],
    page0: &[u16],
    page1: &[u16],
    a: u16,
) -> Result<u16, Refusal>
    ensures number { told result ≡ reached (areas_fit (lent index.entry ports.entry page0.entry page1.entry))
        (lent index.entry ports.entry page0.entry page1.entry) a 0 }
    ensures port { IfOk result (λ p. p ≡ get_or index.now a 0) }
{
    reach(layout::fits(index, ports, page0, page1), index, ports, a)
}

// Asking: the same over the index table and the port words.
pub fn of_ask(index: &[u16], ports: &[u16], a: u16) -> Result<u16, Refusal>
    ensures number { told result ≡ reached (tables_fit (areas index.now ports.now [] []))
        (areas index.now ports.now [] []) a 0 }
    ensures port { IfOk result (λ p. p ≡ get_or index.now a 0) }
{
    reach(layout::tables_fit(index, ports), index, ports, a)
}

// Writing: then the side, and the size.
pub fn of_write(
    index: &[u16],
    ports: &[u16],
    page0: &[u16],
    page1: &[u16],
    a: u16,
    words: &[u16],
) -> Result<u16, Refusal>
    ensures number { told result ≡ write_refusal (lent index.entry ports.entry page0.entry page1.entry) a words.now }
    ensures port { IfOk result (λ p. p ≡ get_or index.now a 0) }
{
    let fit = layout::fits(index, ports, page0, page1);
    let p = reach(fit, index, ports, a)?;
    let w = layout::get_port(ports, p);
    if layout::flags_of(w.flags).sink {
        return Err(Refusal::Side);
    }
    let size = port::port_size(w.master / CODE_UNIT);
    if words.len() != size {
        return Err(Refusal::Range);
    }
    Ok(p)
}
