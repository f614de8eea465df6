//! Counts the lines of standard input in which a pattern has a match, or tells where patterns match texts, or which texts they match.
#![tactic(auto)]

mod blocks;
mod counting;
mod finder;
mod pattern;
mod places;
mod witnesses;

use crate::counting::Counted;
use crate::finder::Means;
use std::{env, io};

const USAGE: &str =
    "usage: bre_ask {count|count_searched|count_anew|all|all_searched} PATTERN | bre_ask {places|places_searched|blocks|blocks_searched|witnesses}";

/// What a task counts, and how, if it counts.
fn count_task(task: &str) -> Option<(Counted, Means)> {
    match task {
        "count" => Some((Counted::Lines, Means::Alone)),
        "count_searched" => Some((Counted::Lines, Means::Searcher)),
        "count_anew" => Some((Counted::Lines, Means::NewSearchers)),
        "all" => Some((Counted::Matches, Means::Alone)),
        "all_searched" => Some((Counted::Matches, Means::Searcher)),
        _ => None,
    }
}

fn main(rt: HostRuntime) -> io::Result<()> {
    let mut words = env::args(&rt)?;
    let _program = words.next();
    let Some(task) = words.next() else {
        return rt.eprintln(USAGE);
    };
    if task.as_str() == "places" {
        return places::tell(&rt, Means::Alone);
    }
    if task.as_str() == "places_searched" {
        return places::tell(&rt, Means::Searcher);
    }
    if task.as_str() == "blocks" {
        return blocks::tell(&rt, Means::Alone);
    }
    if task.as_str() == "blocks_searched" {
        return blocks::tell(&rt, Means::Searcher);
    }
    if task.as_str() == "witnesses" {
        return witnesses::tell(&rt);
    }
    if let Some((counted, means)) = count_task(task.as_str()) {
        if let Some(pattern) = words.next() {
            return counting::print_count(&rt, counted, means, pattern.as_bytes());
        }
    }
    rt.eprintln(USAGE)
}
