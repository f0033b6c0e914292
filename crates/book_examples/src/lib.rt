// Examples of books that are read, refused, written and reported, each at the edges of what is allowed.
#![tactic(auto)]

#[cfg(test)]
mod tests;
