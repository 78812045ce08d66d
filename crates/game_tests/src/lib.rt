// Tests of rolls, rows and exceptions, apart so that their crates are proved once.
#![tactic(auto)]

#[cfg(test)]
mod covers;
#[cfg(test)]
mod rolls;
