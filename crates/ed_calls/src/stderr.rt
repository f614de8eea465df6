//! What is shown on standard error, for a person to read. No clause speaks of these lines.
pub mod aside;
pub mod command_line;
pub mod file_name;
mod found;
mod hinted;
mod letters;
mod missed;
pub mod pattern;
mod reasons;
pub mod refusals;
pub mod shown;
mod stopped;
pub mod unput;
mod unread;
mod unreadable;
mod wanted;
mod written;
