//! The program: `kc_run` over the system.
#![tactic(auto)]

use kc_digests::Lanes;
use kc_run::run;
use std::env;
use std::process::ExitCode;

/// How many pages are hashed at once, by the program's own name, since code cannot ask what it is built for: the
/// program for newer processors (x86-64-v3) is `kcore-x86_64-v3-linux` in `dist/`, or an installed `kcore-v3`. By
/// another name it is only slower.
fn lanes_of(name: &str) -> Lanes {
    if name.ends_with("-v3-linux") || name.ends_with("-v3") {
        Lanes::Eight
    } else {
        Lanes::Four
    }
}

fn main(rt: HostRuntime) -> ExitCode {
    let name = env::args(&rt)
        .ok()
        .and_then(|mut arguments| arguments.next());
    let lanes = match &name {
        Some(name) => lanes_of(name.as_str()),
        None => Lanes::Four,
    };
    ExitCode::from(run(&rt, &rt, lanes))
}
