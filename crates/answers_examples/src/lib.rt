// Events at the edges, and what is printed of them.
#![tactic(auto)]

#[cfg(test)]
mod tests;
