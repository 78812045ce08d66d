// Steps of small models, worked out by hand.
#![tactic(auto)]

mod models;
#[cfg(test)]
mod tests;
