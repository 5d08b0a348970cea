// The program `filter`: writes the filtered stream of what it reads, or the line of a refusal.
#![tactic(auto)]

use programs::lines::Writes;
use programs::stream::stream;
use std::rt::HostRuntime;

fn main(rt: HostRuntime) {
    stream(rt, Writes::Stream);
}
