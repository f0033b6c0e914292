// Examples of sheets on masks, on cards and on a row of their own, each at the edges of what counts.
#![tactic(auto)]

#[cfg(test)]
mod tests;
