// What the payloads of signalling packets teach: by their messages and tables, by fragments joined. No wish comes in.
#![tactic(auto)]

pub mod messages;
pub mod observe;
