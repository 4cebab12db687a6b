// The listing program on the texts of data/, one after the other, each behind its name. One program for all: another would cost the gate its
// proof, and a text more costs it nothing.
#![tactic(auto)]

use saying::STDOUT_FILENO;
use std::fs;
use std::rt::Files;

fn list<R: Files + Eprint>(rt: &R, name: &str) {
    io::write_all(STDOUT_FILENO, name.as_bytes());
    io::write_all(STDOUT_FILENO, b"\n");
    match fs::open(rt, name) {
        Ok(mut file) => {
            // what refused was printed
            let _ = lister::run_on(&mut file);
        }
        Err(error) => files::fail(rt, name, error),
    }
}

// Texts that are listed.
fn listed<R: Files + Eprint>(rt: &R) {
    list(rt, "no_rows");
    list(rt, "columns_16");
    list(rt, "leaf_as_centres");
    list(rt, "equal_26");
    list(rt, "equal_27");
    list(rt, "most_rows");
}

// Texts that are read as numbers, which the build refuses.
fn refused<R: Files + Eprint>(rt: &R) {
    list(rt, "columns_17");
    list(rt, "leaf_below_centres");
    list(rt, "ragged");
    list(rt, "longest");
}

// Texts that are not read, and a directory.
fn unread<R: Files + Eprint>(rt: &R) {
    list(rt, "nothing");
    list(rt, "leading_zero");
    list(rt, "number_65536");
    list(rt, "number_too_many");
    list(rt, "far_too_long");
    list(rt, ".");
}

fn main(rt: HostRuntime) {
    listed(&rt);
    refused(&rt);
    unread(&rt);
}
