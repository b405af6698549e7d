//! A program that answers lines on standard input, each of which says which bytes, schemas or rows are told or written:
//! numbers, Thrift structs, Parquet files with their pages and rows, schemas and Delta commits.
//!
//! The words of its command line are files, of which the bytes are named `$1`, `$2` and so on. The head of `stdin`
//! lists the lines.
#![tactic(auto)]

mod chunks;
mod columns;
mod commit;
mod describing;
mod files;
mod footer;
mod headers;
mod heaps;
mod lines;
mod pages;
mod rows;
mod schema;
mod spoiling;
mod tables;
mod tree;
mod writing;

use crate::lines::answered;
use byte_words::Bindings;
use std::collections::BTreeMap;
use std::env::Env;
use std::rt::Files;
use std::{env, fs, io};

/// The bytes of the files that the command line names, by their numbers. Tells which of them can't be read.
fn files_named<R: Files + Env + Eprint + AllocGlobal>(rt: &R) -> io::Result<Bindings> {
    let mut names = BTreeMap::new(rt.alloc());
    let mut number = 0u64;
    for file in env::args(rt)?.skip(1) {
        number = number.saturating_add(1);
        match fs::read(rt, &file) {
            Ok(bytes) => {
                names.insert(format!(in rt.alloc(); "{number}")?, bytes)?;
            }
            Err(error) => {
                eprintln!(rt; "{file}")?;
                return Err(error);
            }
        }
    }
    Ok(names)
}

fn main(rt: HostRuntime) -> io::Result<()> {
    let mut names = files_named(&rt)?;
    let text = io::read_to_string(rt.alloc(), rt.stdin())?;
    let mut number = 0u64;
    for line in text.lines() {
        number = number.saturating_add(1);
        if line.is_empty() || line.starts_with('#') {
            rt.println(line)?;
        } else {
            let told = answered(rt.alloc(), &mut names, line, number);
            rt.println(told.text())?;
        }
    }
    Ok(())
}
