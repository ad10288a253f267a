//! The program: real files, standard output, and the status with which the process ends.
#![tactic(auto)]

mod real;

use crate::real::{RealFiles, RealSink};
use sdg_top::{Status, java2sdg};
use std::alloc::Global;
use std::process::ExitCode;
use std::{env, io};

/// The words behind the program's name. Words that are no text make a faulty command line, as no
/// words do.
fn words_of(rt: &HostRuntime, alloc: Global) -> io::Result<Vec<String>> {
    let mut words = Vec::new(alloc);
    match env::args(rt) {
        Ok(args) => {
            for word in args.skip(1) {
                words.push(word)?;
            }
            Ok(words)
        }
        Err(error) if error.kind() == io::ErrorKind::OutOfMemory => Err(error),
        Err(_) => Ok(words),
    }
}

fn main(rt: HostRuntime) -> ExitCode {
    let alloc = rt.alloc();
    let status = match words_of(&rt, alloc) {
        Ok(words) => {
            let mut files = RealFiles::new(&rt, alloc);
            let mut out = RealSink::new(&rt);
            java2sdg(alloc, &words, &mut files, &mut out)
        }
        Err(_) => Status::Memory,
    };
    ExitCode::from(status.code())
}
