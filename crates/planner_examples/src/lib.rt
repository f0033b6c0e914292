// Examples of prices, prunes and quotes: on masks and on cards, in each of the three scales.
#![tactic(auto)]

#[cfg(test)]
mod tests;
