#![tactic(auto)]

// What is said of lines that can't be read: they end the program, so they are tried here and not in its input.
#[cfg(test)]
mod tests;
