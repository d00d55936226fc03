// The worked examples of reading, as tests.
#![tactic(auto)]

#[cfg(test)]
mod tests;
