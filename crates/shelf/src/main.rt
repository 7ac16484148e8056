//! A shelf that is talked to in lines.
#![tactic(auto)]

mod failure;
mod request;
mod talking;

use failure::Failure;
use line_service::Streams;
use programs::ended;
use request::{Request, USAGE};
use rows::OnOff;
use std::env;
use std::process::ExitCode;
use talking::{SLOTS, talk};

fn run(rt: &HostRuntime) -> Result<(), Failure> {
    let args: Vec<String> = env::args(rt)?.skip(1).collect(rt.alloc())?;
    match Request::of(args.as_slice()) {
        Some(Request::Serve) => {
            let mut memory = [OnOff::Off; SLOTS * 1024];
            let mut streams = Streams::new(rt.alloc(), rt.stdin(), rt.stdout())?;
            talk(&mut memory, &mut streams)?;
        }
        Some(Request::Help) => println!(rt; "{USAGE}")?,
        None => return Err(Failure::Usage),
    }
    Ok(())
}

fn main(rt: HostRuntime) -> ExitCode {
    ended(&rt, run(&rt))
}
