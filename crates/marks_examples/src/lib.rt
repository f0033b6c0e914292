// Examples of marks: sheets that are gone back on, slips that are refused, and lists of events.
#![tactic(auto)]

#[cfg(test)]
mod tests;
