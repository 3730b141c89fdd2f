//! Benchmarks, each with a stored run: exact gaps, lines and fields, a journal beside the same by hand, pages beside memory.
//!
//! Without a word it prints the stored run: the sum of a million gaps, what some lines and fields are read as, whether records have the same bytes
//! by a journal and by hand, and whether what is kept in pages answers as the same in memory does. With words it makes what the scripts of `bench/`
//! time: `gaps`; `lines 100000`; `journal hand 500 20`; `pages rank 100000` and `map memory look 20`. The draws are those of linear congruential
//! generators. Above: nothing. Below: `plane_geom`, `script_text`, `work_gen`, `sand_journal`, and what is kept in pages: `page_pool`, `code_btree`,
//! `tuple_file`, `attr_index`, `pmr_tree`, with `rank_cursor`, `dist_join` and `semi_join`. Read `src/gaps.rt`, `src/lines.rt`, `src/journals.rt`
//! and `src/pages.rt`.
#![tactic(auto)]

mod bulk_cases;
mod by_hand;
mod by_journal;
mod cases;
mod compared;
mod draws;
mod edge_shapes;
mod entries;
mod filled_pool;
mod gaps;
mod journals;
mod lines;
mod map_speed;
mod open_pool;
mod pages;
mod plain_tape;
mod plain_tree;
mod pool_cases;
mod pool_commands;
mod pool_speed;
mod readers;
mod reading;
mod sample;
mod searches;
mod shapes;
mod shy_disk;
mod speed;
mod timed;
mod tree_cases;
mod tree_changes;
mod tree_trial;
mod trees;
mod tuples;
mod twins;

use std::{env, io};

// The text of a word, where there is one.
fn text_of(word: &Option<String>) -> &str {
    match word {
        Some(text) => text.as_str(),
        None => "",
    }
}

// The stored run.
fn tell_all(rt: &(impl Print + AllocGlobal)) -> io::Result<()> {
    gaps::tell(rt)?;
    lines::tell_all(rt)?;
    journals::tell_all(rt)?;
    pages::tell_all(rt)
}

// Makes what a bench does by three words, of which the last ones may be empty.
fn made(rt: &(impl Print + AllocGlobal), bench: &str, words: [&str; 3]) -> io::Result<()> {
    let [first, second, third] = words;
    match bench {
        "" => tell_all(rt),
        "gaps" => gaps::tell(rt),
        "lines" => lines::measure(rt, first),
        "journal" => journals::measure(rt, first, second, third),
        "map" => map_speed::measure(rt, first, second, third),
        "pages" => pages::measure(rt, first, second),
        _ => rt.println("gaps, lines, journal, map or pages"),
    }
}

fn main(rt: HostRuntime) -> io::Result<()> {
    let mut words = env::args(&rt)?.skip(1);
    let bench = words.next();
    let (first, second, third) = (words.next(), words.next(), words.next());
    let rest = [text_of(&first), text_of(&second), text_of(&third)];
    made(&rt, text_of(&bench), rest)
}
