// Many inputs of the port program in one run: each file that an argument names is one input, and after what is printed of it stands a line
// `--`. The inputs and what must be printed of them are written by make.py, from document 01 alone.
//
// No function here promises anything of its result; all are proved to be safe and to end.
#![tactic(auto)]

use std::env::FillError;
use std::io::Write;
use std::rt::{Env, Files};
use std::{fs, io, str};

// The file of this name is one input.
fn run_file(rt: &(impl Files + Print + Eprint), path: &str) {
    match fs::open(rt, path) {
        Ok(mut file) => {
            let mut output = io::writer(rt);
            port_stream::serve(rt, &mut file, &mut output);
            let _ = output.write_all(b"--\n");
        }
        Err(error) => {
            let _ = eprintln!(rt; "{path}: {error}");
        }
    }
}

// The arguments end where one is not there. They are counted by hand, since std's iterator over them needs a heap.
fn main(rt: HostRuntime) {
    let mut path = [0u8; 4096];
    for i in 1..usize::MAX {
        let name = match rt.arg(i, &mut path) {
            Ok(n) => str::from_utf8(&path[..n]).ok(),
            Err(FillError::TooLong) => None,
            Err(FillError::NotPresent) => return,
        };
        match name {
            Some(name) => run_file(&rt, name),
            None => {
                let _ = eprintln!(rt; "argument {i}: no file is named so");
            }
        }
    }
}
