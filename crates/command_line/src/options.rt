// The options of `solve`.
ghost use Rattle.std.specs.Prelude.{◌≡◌, map, option_map, string_bytes};
ghost use Rattle.command_line.specs.Words.{options_in};
ghost use Rattle.command_line.specs.Found as found;

use crate::parts::{read_count, read_file};

const MOST_WORKERS: u32 = 64;

const MOST_NODES: u32 = 100_001;

/// The values of the options, with what stands for those that are left out.
#[derive(Clone, Copy)]
pub struct Choice<'w> {
    pub workers: u32,
    pub nodes: u32,
    pub log: Option<&'w str>,
}

// The values of the options that have been read.
#[derive(Clone, Copy)]
struct Found<'w> {
    workers: Option<u32>,
    nodes: Option<u32>,
    log: Option<&'w str>,
}

fn with_workers<'w>(so_far: Found<'w>, value: &str) -> Option<Found<'w>>
    ensures { option_map found.past_of result ≡ found.with_workers (found.past_of so_far.entry) value.now }
{
    if so_far.workers.is_some() {
        return None;
    }
    match read_count(value, 1, MOST_WORKERS) {
        Some(workers) => Some(Found {
            workers: Some(workers),
            ..so_far
        }),
        None => None,
    }
}

fn with_nodes<'w>(so_far: Found<'w>, value: &str) -> Option<Found<'w>>
    ensures { option_map found.past_of result ≡ found.with_nodes (found.past_of so_far.entry) value.now }
{
    if so_far.nodes.is_some() {
        return None;
    }
    match read_count(value, 1, MOST_NODES) {
        Some(nodes) => Some(Found {
            nodes: Some(nodes),
            ..so_far
        }),
        None => None,
    }
}

fn with_log<'w>(so_far: Found<'w>, value: &'w str) -> Option<Found<'w>>
    ensures { option_map found.past_of result ≡ found.with_log (found.past_of so_far.entry) value.now }
{
    if so_far.log.is_some() {
        return None;
    }
    match read_file(value) {
        Some(log) => Some(Found {
            log: Some(log),
            ..so_far
        }),
        None => None,
    }
}

fn with_option<'w>(so_far: Found<'w>, name: &str, value: &'w str) -> Option<Found<'w>>
    ensures { option_map found.past_of result ≡ found.with_option (found.past_of so_far.entry) name.now value.now }
{
    if name == "--workers" {
        with_workers(so_far, value)
    } else if name == "--nodes" {
        with_nodes(so_far, value)
    } else if name == "--log" {
        with_log(so_far, value)
    } else {
        None
    }
}

// The options that are left out are the defaults.
fn choice_of(so_far: Found<'_>) -> Choice<'_>
    ensures { found.options_chosen result ≡ found.options_found (found.past_of so_far.entry) }
{
    Choice {
        workers: so_far.workers.unwrap_or(1),
        nodes: so_far.nodes.unwrap_or(MOST_NODES),
        log: so_far.log,
    }
}

/// The options that the words are, in any order, each at most once.
pub fn read_options(words: &[String]) -> Option<Choice<'_>>
    ensures { option_map found.options_chosen result ≡ options_in (map string_bytes words.now) }
{
    let mut left = words;
    let mut so_far = Found {
        workers: None,
        nodes: None,
        log: None,
    };
    while let [name, value, rest @ ..] = left {
        so_far = with_option(so_far, name.as_str(), value.as_str())?;
        left = rest;
    }
    if left.is_empty() {
        Some(choice_of(so_far))
    } else {
        None
    }
}
