// The program `answers`: answers to a batch of cases, in the format of docs/ARCHITECTURE.md.
#![tactic(auto)]

use cases::answer_all;
use std::rt::HostRuntime;

fn main(rt: HostRuntime) {
    answer_all(rt);
}
