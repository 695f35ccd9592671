// The step table as the gate array loads it: prints the 256 entries that the crate `sequence` computes with, from its proved array. One entry
// a line, two lower-case hexadecimal digits, entry 0 first.
//
// The file stdout is that listing. make.py works it out from G(x) alone, by long division, and the gate compares both.
#![tactic(auto)]

// A write that fails is passed over: the entries that are missing show it.
fn print_entry(rt: &impl Print, i: u8) {
    let entry = sequence::step_at(i);
    let _ = println!(rt; "{entry:02x}");
}

fn main(rt: HostRuntime) {
    for i in 0..=255 {
        print_entry(&rt, i);
    }
}
