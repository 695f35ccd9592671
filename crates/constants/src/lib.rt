// Document 01's numbers, each in one place: the ranges of arguments, the times and the shape of the areas; and what callers are told
// (`refusals`). A wrong number is refused where the code that uses it is proved against the definition that has it.
#![tactic(auto)]

mod refusals;

pub use refusals::{Refusal, told};

// Addresses are 0 to 4095, ports 1 to 255, the F-codes of ports 0 to 4, data transfer interrupts 1 to 7, or 0 for none.
pub const LAST_ADDRESS: u16 = 4095;

pub const LAST_PORT: u16 = 255;

pub const LAST_CODE: u16 = 4;

pub const LAST_INTERRUPT: u16 = 7;

// Quiet time is 0 to 65,535 bit times.
pub const LAST_QUIET: u32 = 65535;

// The reply time of a fresh controller, and the two timeouts, 1.30 and 1.42 ms, in bit times.
pub const FIRST_REPLY_TIME: u16 = 64;

pub const BUS_TIMEOUT: u16 = 1950;

pub const LINE_TIMEOUT: u16 = 2130;

// A millisecond, in bit times, and where an age stops, in milliseconds.
pub const MILLISECOND: u16 = 1500;

pub const OLDEST: u16 = 65535;

// Where EC stops.
pub const LAST_EC: u16 = 65535;

// The F-code of a status poll.
pub const STATUS_CODE: u16 = 15;

// The weights of LAA and RLD in the status word that a poll is answered with.
pub const STATUS_LAA: u16 = 128;

pub const STATUS_RLD: u16 = 64;

// The lengths of the index table, of the port words and of a page.
pub const INDEX: usize = 4096;

pub const PORTS: usize = 2048;

pub const PAGE: usize = 4096;

// A port has eight port words, and owns sixteen words of each page.
pub const PORT_WORDS: usize = 8;

pub const PAGE_WORDS: usize = 16;

// A master word is F-code x 4096 + address.
pub const CODE_UNIT: u16 = 4096;

// Fills are counted modulo 65,536.
pub const FILLS: u32 = 65536;

// The weights of the flags in word 1: the sides, the status bits, among them the marks of the blocks, and the first bit that is always zero.
pub const VP: u16 = 1;

pub const EVER: u16 = 2;

pub const SRC: u16 = 4;

pub const SINK: u16 = 8;

pub const STO: u16 = 16;

pub const TERR: u16 = 32;

pub const CRC: u16 = 64;

pub const SQE: u16 = 128;

pub const ALO: u16 = 256;

pub const FIRST_BLOCK: u16 = 512;

pub const SECOND_BLOCK: u16 = 1024;

pub const THIRD_BLOCK: u16 = 2048;

pub const FOURTH_BLOCK: u16 = 4096;

pub const ZERO_BITS: u16 = 8192;
