//! What is shown on standard error of the words that the program is given, and of a script that is typed or empty. No clause speaks of
//! these lines.
pub mod chain;
pub mod notes;
pub mod pattern;
pub mod usage;
