//! Tests of public calls of `ed_rules` and `cert_check` that the program doesn't make alone, or whose values it doesn't tell.
#![tactic(auto)]

#[cfg(test)]
mod collecting;
#[cfg(test)]
mod fact_texts;
#[cfg(test)]
mod facts_after;
#[cfg(test)]
mod followed_globals;
#[cfg(test)]
mod globals;
#[cfg(test)]
mod landmark_starts;
#[cfg(test)]
mod line_facts;
#[cfg(test)]
mod rewritten_lines;
#[cfg(test)]
mod rules;
#[cfg(test)]
mod stated_facts;
#[cfg(test)]
mod substitution;
#[cfg(test)]
mod text;
#[cfg(test)]
mod third_version;
#[cfg(test)]
mod told_facts;
#[cfg(test)]
mod versions;
#[cfg(test)]
mod walking;
