//! The program `wgr`.
#![tactic(auto)]

mod laws;
mod messages;
mod order_lines;
mod program;
mod register_words;
mod reply;
mod request_words;
mod requests;
mod send;
mod showing;

use sqlite::Unknown;
use std::process::ExitCode;
use std::{env, io};
use wgr_io::Device;
use wgr_service::Sockets;

// The program's own name and the arguments after it.
fn arguments(rt: &HostRuntime) -> io::Result<Vec<String>> {
    Ok(env::args(rt)?.collect(rt.alloc())?)
}

fn main(rt: HostRuntime) -> ExitCode {
    let mut input = Device::new(rt.stdin());
    let mut out = Device::new(rt.stdout());
    let mut err = Device::new(rt.stderr());
    let mut network = Sockets::new(rt.alloc(), &rt);
    let arguments = arguments(&rt);
    let (status, _files) = program::run(
        &rt,
        Unknown,
        &arguments,
        &mut network,
        &mut input,
        &mut out,
        &mut err,
    );
    ExitCode::from(status)
}
