// The calls of the module `port_calls` of `firmware`, for C. Written by firmware/make.py.
ghost use Rattle.std.specs.Prelude.{◌≡◌, []};
ghost use Rattle.model.specs.Layout.{areas};
ghost use Rattle.model.specs.Calls.{open_port, close_port, write_port, asked};
ghost use Rattle.areas.specs.Lent.{lent};
ghost use Rattle.host_ports.specs.Host.{out, host_call};
ghost use Rattle.firmware_layout.specs.Flags.{is_bit, is_set};
ghost use Rattle.firmware.specs.Promise.{open_through, answer_number, fetching};

use firmware::{Fetched, Number};

// Opens port p at address a, as a sink (1) or a source (0) of this F-code, with a data transfer interrupt or 0, and a limit in milliseconds or
// 0 where it is not supervised.
#[unsafe(no_mangle)]
pub extern "C" fn tolvendrum_open(
    index: &mut [u16],
    ports: &mut [u16],
    page0: &[u16],
    page1: &[u16],
    a: u16,
    p: u16,
    code: u16,
    sink: u16,
    interrupt: u16,
    limit: u16,
) -> u16
    ensures { out (areas index.new ports.new page0.now page1.now) result ≡
        open_through (is_bit sink) (open_port a p code (is_set sink) interrupt limit)
        (areas index.old ports.old page0.now page1.now) }
{
    firmware::port_calls::tolvendrum_open(
        index, ports, page0, page1, a, p, code, sink, interrupt, limit,
    )
}

// Closes the port at address a.
#[unsafe(no_mangle)]
pub extern "C" fn tolvendrum_close(
    index: &mut [u16],
    ports: &mut [u16],
    page0: &[u16],
    page1: &[u16],
    a: u16,
) -> u16
    ensures { out (areas index.new ports.new page0.now page1.now) result ≡
        host_call (close_port a) (areas index.old ports.old page0.now page1.now) }
{
    firmware::port_calls::tolvendrum_close(index, ports, page0, page1, a)
}

// Writes to the source at address a, in its exact size.
#[unsafe(no_mangle)]
pub extern "C" fn tolvendrum_write(
    index: &[u16],
    ports: &mut [u16],
    page0: &mut [u16],
    page1: &mut [u16],
    a: u16,
    words: &[u16],
) -> u16
    ensures { out (areas index.now ports.new page0.new page1.new) result ≡
        host_call (write_port a words.now) (areas index.now ports.old page0.old page1.old) }
{
    firmware::port_calls::tolvendrum_write(index, ports, page0, page1, a, words)
}

// Asks for the state of the port at address a, from the index table and the port words alone: 0 never, 1 good, 2 held, 3 stale.
#[unsafe(no_mangle)]
pub extern "C" fn tolvendrum_ask(index: &[u16], ports: &[u16], a: u16) -> Number
    ensures { result ≡ answer_number (asked (areas index.now ports.now [] []) a) }
{
    firmware::port_calls::tolvendrum_ask(index, ports, a)
}

// The valid words of the port at address a, copied out; none exactly when asking refuses or answers never, or a page has another length. Such
// a page is refused here with 1, though asking is not.
#[unsafe(no_mangle)]
pub extern "C" fn tolvendrum_fetch<'a>(
    index: &[u16],
    ports: &[u16],
    page0: &'a [u16],
    page1: &'a [u16],
    a: u16,
) -> Fetched
    ensures { result ≡ fetching (lent index.entry ports.entry page0.entry page1.entry) a }
{
    firmware::port_calls::tolvendrum_fetch(index, ports, page0, page1, a)
}
