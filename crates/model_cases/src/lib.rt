// Joined models on examples.
#![tactic(auto)]

#[cfg(test)]
mod tests;
