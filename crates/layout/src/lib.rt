// How the host's boundary lays answers out; no rule lives here.
#![tactic(auto)]

pub mod lay;
