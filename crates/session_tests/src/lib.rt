// Tests of regions and sessions, apart so that their crates are proved once.
#![tactic(auto)]

mod models;
#[cfg(test)]
mod regions;
#[cfg(test)]
mod sessions;
