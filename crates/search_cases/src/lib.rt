// Deciding paths on examples, also by a weight that the library does not have.
#![tactic(auto)]

mod by_actions;
mod by_steps;
#[cfg(test)]
mod tests;
