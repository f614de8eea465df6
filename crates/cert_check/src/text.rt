//! The text of a certificate, written and read.

pub(crate) mod cursor;
pub(crate) mod fact_lines;
pub(crate) mod fact_reading;
pub(crate) mod fact_writing;
pub(crate) mod fault;
pub(crate) mod formed_facts;
pub(crate) mod has_text;
pub(crate) mod kept;
pub(crate) mod lines;
pub(crate) mod notes;
pub(crate) mod readers;
pub(crate) mod reading;
pub(crate) mod said_zones;
pub(crate) mod states;
pub(crate) mod transcript;
pub(crate) mod wanted;
pub(crate) mod words;
pub(crate) mod words_in;
pub(crate) mod writer;
pub(crate) mod writing;
pub(crate) mod zone_lines;
