// Deciding paths of formulas on the upload model.
#![tactic(auto)]

#[cfg(test)]
mod tests;
