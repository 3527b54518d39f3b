// Examples and limits of the heap and of the waiting lines, each run as a test.

#![tactic(auto)]

#[cfg(test)]
mod heaps;
#[cfg(test)]
mod lines;
