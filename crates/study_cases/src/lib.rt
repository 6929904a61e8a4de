// Lists of calls on a study, over the three models and both shelves.
#![tactic(auto)]

#[cfg(test)]
mod calls;
#[cfg(test)]
mod orders;
#[cfg(test)]
mod tests;
