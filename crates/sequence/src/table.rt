// The step table: the one listing of it, for this crate and for the gate array, and the division by G(x) a byte at a time.
//
// Entry i is what the eight bits of i, most significant bit first, times x^7, leave modulo G(x): seven bits, right aligned. A remainder r
// takes the next byte b by the entry of r times x plus b. specs/Steps.antt has the rule, proofs/Steps.antt that each entry is the remainder
// by the statement of specs/Remainder.antt. The crate `step_table` prints the listing that the gate array loads.
ghost use Rattle.std.specs.Prelude.{◌≡◌, ◌<◌};
ghost use Rattle.sequence.specs.Check.{pushes};
ghost use Rattle.sequence.specs.Steps.{step_of, StepTable};

// An entry a line, its number beside it.
static STEP: [u8; 256] = [
    0x00, // 00
    0x65, // 01
    0x2f, // 02
    0x4a, // 03
    0x5e, // 04
    0x3b, // 05
    0x71, // 06
    0x14, // 07
    0x59, // 08
    0x3c, // 09
    0x76, // 0a
    0x13, // 0b
    0x07, // 0c
    0x62, // 0d
    0x28, // 0e
    0x4d, // 0f
    0x57, // 10
    0x32, // 11
    0x78, // 12
    0x1d, // 13
    0x09, // 14
    0x6c, // 15
    0x26, // 16
    0x43, // 17
    0x0e, // 18
    0x6b, // 19
    0x21, // 1a
    0x44, // 1b
    0x50, // 1c
    0x35, // 1d
    0x7f, // 1e
    0x1a, // 1f
    0x4b, // 20
    0x2e, // 21
    0x64, // 22
    0x01, // 23
    0x15, // 24
    0x70, // 25
    0x3a, // 26
    0x5f, // 27
    0x12, // 28
    0x77, // 29
    0x3d, // 2a
    0x58, // 2b
    0x4c, // 2c
    0x29, // 2d
    0x63, // 2e
    0x06, // 2f
    0x1c, // 30
    0x79, // 31
    0x33, // 32
    0x56, // 33
    0x42, // 34
    0x27, // 35
    0x6d, // 36
    0x08, // 37
    0x45, // 38
    0x20, // 39
    0x6a, // 3a
    0x0f, // 3b
    0x1b, // 3c
    0x7e, // 3d
    0x34, // 3e
    0x51, // 3f
    0x73, // 40
    0x16, // 41
    0x5c, // 42
    0x39, // 43
    0x2d, // 44
    0x48, // 45
    0x02, // 46
    0x67, // 47
    0x2a, // 48
    0x4f, // 49
    0x05, // 4a
    0x60, // 4b
    0x74, // 4c
    0x11, // 4d
    0x5b, // 4e
    0x3e, // 4f
    0x24, // 50
    0x41, // 51
    0x0b, // 52
    0x6e, // 53
    0x7a, // 54
    0x1f, // 55
    0x55, // 56
    0x30, // 57
    0x7d, // 58
    0x18, // 59
    0x52, // 5a
    0x37, // 5b
    0x23, // 5c
    0x46, // 5d
    0x0c, // 5e
    0x69, // 5f
    0x38, // 60
    0x5d, // 61
    0x17, // 62
    0x72, // 63
    0x66, // 64
    0x03, // 65
    0x49, // 66
    0x2c, // 67
    0x61, // 68
    0x04, // 69
    0x4e, // 6a
    0x2b, // 6b
    0x3f, // 6c
    0x5a, // 6d
    0x10, // 6e
    0x75, // 6f
    0x6f, // 70
    0x0a, // 71
    0x40, // 72
    0x25, // 73
    0x31, // 74
    0x54, // 75
    0x1e, // 76
    0x7b, // 77
    0x36, // 78
    0x53, // 79
    0x19, // 7a
    0x7c, // 7b
    0x68, // 7c
    0x0d, // 7d
    0x47, // 7e
    0x22, // 7f
    0x03, // 80
    0x66, // 81
    0x2c, // 82
    0x49, // 83
    0x5d, // 84
    0x38, // 85
    0x72, // 86
    0x17, // 87
    0x5a, // 88
    0x3f, // 89
    0x75, // 8a
    0x10, // 8b
    0x04, // 8c
    0x61, // 8d
    0x2b, // 8e
    0x4e, // 8f
    0x54, // 90
    0x31, // 91
    0x7b, // 92
    0x1e, // 93
    0x0a, // 94
    0x6f, // 95
    0x25, // 96
    0x40, // 97
    0x0d, // 98
    0x68, // 99
    0x22, // 9a
    0x47, // 9b
    0x53, // 9c
    0x36, // 9d
    0x7c, // 9e
    0x19, // 9f
    0x48, // a0
    0x2d, // a1
    0x67, // a2
    0x02, // a3
    0x16, // a4
    0x73, // a5
    0x39, // a6
    0x5c, // a7
    0x11, // a8
    0x74, // a9
    0x3e, // aa
    0x5b, // ab
    0x4f, // ac
    0x2a, // ad
    0x60, // ae
    0x05, // af
    0x1f, // b0
    0x7a, // b1
    0x30, // b2
    0x55, // b3
    0x41, // b4
    0x24, // b5
    0x6e, // b6
    0x0b, // b7
    0x46, // b8
    0x23, // b9
    0x69, // ba
    0x0c, // bb
    0x18, // bc
    0x7d, // bd
    0x37, // be
    0x52, // bf
    0x70, // c0
    0x15, // c1
    0x5f, // c2
    0x3a, // c3
    0x2e, // c4
    0x4b, // c5
    0x01, // c6
    0x64, // c7
    0x29, // c8
    0x4c, // c9
    0x06, // ca
    0x63, // cb
    0x77, // cc
    0x12, // cd
    0x58, // ce
    0x3d, // cf
    0x27, // d0
    0x42, // d1
    0x08, // d2
    0x6d, // d3
    0x79, // d4
    0x1c, // d5
    0x56, // d6
    0x33, // d7
    0x7e, // d8
    0x1b, // d9
    0x51, // da
    0x34, // db
    0x20, // dc
    0x45, // dd
    0x0f, // de
    0x6a, // df
    0x3b, // e0
    0x5e, // e1
    0x14, // e2
    0x71, // e3
    0x65, // e4
    0x00, // e5
    0x4a, // e6
    0x2f, // e7
    0x62, // e8
    0x07, // e9
    0x4d, // ea
    0x28, // eb
    0x3c, // ec
    0x59, // ed
    0x13, // ee
    0x76, // ef
    0x6c, // f0
    0x09, // f1
    0x43, // f2
    0x26, // f3
    0x32, // f4
    0x57, // f5
    0x1d, // f6
    0x78, // f7
    0x35, // f8
    0x50, // f9
    0x1a, // fa
    0x7f, // fb
    0x6b, // fc
    0x0e, // fd
    0x44, // fe
    0x21, // ff
];

// The table, where it lies.
fn steps() -> &'static [u8; 256]
    ensures { StepTable result.now }
{
    &STEP
}

// Entry i of the table.
fn step(i: usize) -> u8
    requires { i < 256 }
    ensures { result ≡ step_of i }
{
    steps()[i]
}

// Entry i of the table, for whoever lists it.
pub fn step_at(i: u8) -> u8
    ensures { result ≡ step_of i }
{
    step(i as usize)
}

// The eight bits of a byte, the most significant first: one step. The entry's number is computed as an index: in a byte it would have to be cut
// again before each step.
fn push_byte(r: u8, b: u8) -> u8
    requires { r < 128 }
    ensures pushed { result ≡ pushes 8 r b }
    ensures small { result < 128 }
{
    step(((r as usize) * 2) ^ (b as usize))
}

// The sixteen bits of a word, the most significant first: its high byte, then its low byte.
pub(crate) fn push_word(r: u8, w: u16) -> u8
    requires { r < 128 }
    ensures pushed { result ≡ pushes 16 r w }
    ensures small { result < 128 }
{
    let high = (w / 256) as u8;
    let low = (w % 256) as u8;
    push_byte(push_byte(r, high), low)
}
