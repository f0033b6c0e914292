// Orders at the edges, and what is said of them.
#![tactic(auto)]

#[cfg(test)]
mod tests;
