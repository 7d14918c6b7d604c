//! `lafkundi ask`: searches by a text that a person writes.

use crate::file_index::open;
use crate::words::{file, flag, text_of};
use ask::{FieldScores, HitOrder, Question, Search};
use clap::{Arg, ArgAction, ArgMatches, Command, value_parser};
use std::alloc::{AllocError, Global};

/// The status where nothing is searched.
const FAILED: u8 = 2;

const ABOUT: &str = "Prints the best documents that a text finds";

const TEXTS: &str = "\
TEXT      what it finds
 sea wind        documents with both words       +sea wind         with sea, and better with wind too
 sea AND wind    the same                        sea OR wind       with either; OR binds less than a space
 -sea            documents without a word        NOT sea           the same
 (sea OR wind) old       groups                  harbour^2         a word that counts twice
 \"old sea\"       words beside each other         \"old sea\"~2       up to 2 places apart
 \"old sea*\"      the last word begun alone       title:sea         in one field; else in all text fields
 year:1952       a value, by the field's type    about.ship:sea    at a path in a field of objects

Examples:
  lafkundi ask mail.idx 'from:\"ann@quay.example\" invoice -draft' -k 3
  lafkundi ask mail.idx invoice --newest --fields sent,from,subject
  lafkundi ask mail.idx invoice --facets label -k 0

The status is 0; 1 where nothing matches; 2 where the text isn't read or the file can't be searched.";

/// Makes the command line of `ask`.
pub(crate) fn command<'a>(alloc: Global) -> Result<Command<'a>, AllocError> {
    Command::new(alloc, "ask")
        .about(ABOUT)
        .after_help(TEXTS)
        .arg(file(alloc))?
        .arg(text(alloc))?
        .arg(count(alloc))?
        .arg(from(alloc))?
        .arg(sort(alloc)?)?
        .arg(flag(
            alloc,
            "newest",
            "The same as --sort with a hyphen and the one stored field of dates",
        ))?
        .arg(fields(alloc))?
        .arg(facets(alloc))?
        .arg(flag(
            alloc,
            "count",
            "Prints how many documents match, and none of them",
        ))?
        .arg(flag(
            alloc,
            "json",
            "Prints each document as an object on a line, its texts whole",
        ))?
        .arg(flag(
            alloc,
            "flat",
            "Each word weighs the same; else a rare word weighs more",
        ))?
        .arg(flag(
            alloc,
            "best-field",
            "A word that names no field scores by its best field; else by all",
        ))
}

/// Returns the argument TEXT, which may begin with a hyphen.
fn text<'a>(alloc: Global) -> Arg<'a> {
    Arg::new(alloc, "text")
        .value_name("TEXT")
        .help("What is looked for")
        .required(true)
        .allow_hyphen_values(true)
}

/// Returns the option of how many documents are printed.
fn count<'a>(alloc: Global) -> Arg<'a> {
    Arg::new(alloc, "k")
        .short('k')
        .value_name("N")
        .help("Prints N documents")
        .default_value("10")
        .value_parser(value_parser!(usize))
}

/// Returns the option of how many documents are left out before them.
fn from<'a>(alloc: Global) -> Arg<'a> {
    Arg::new(alloc, "from")
        .long("from")
        .value_name("N")
        .help("Leaves out the first N")
        .default_value("0")
        .value_parser(value_parser!(usize))
}

/// Returns the option of the field by whose values documents are ordered.
fn sort<'a>(alloc: Global) -> Result<Arg<'a>, AllocError> {
    Arg::new(alloc, "sort")
        .long("sort")
        .value_name("FIELD")
        .help("Orders by a stored field, the least value first; -FIELD the greatest first")
        .allow_hyphen_values(true)
        .conflicts_with("newest")
}

/// Returns the option of the fields that are printed.
fn fields<'a>(alloc: Global) -> Arg<'a> {
    Arg::new(alloc, "fields")
        .long("fields")
        .value_name("NAMES")
        .help("Prints these stored fields alone, with commas between their names")
        .action(ArgAction::Append)
        .value_delimiter(',')
}

/// Returns the option of the field of whose values the documents are counted.
fn facets<'a>(alloc: Global) -> Arg<'a> {
    Arg::new(alloc, "facets")
        .long("facets")
        .value_name("FIELD")
        .help("Prints behind them how many of all that match have each value of a field")
}

/// Searches as is asked.
pub(crate) fn run(rt: &HostRuntime, given: &ArgMatches<'_>) -> u8 {
    let search = search_in(given);
    if is_option(search.question.text) {
        let _ = eprintln!(rt;
            "lafkundi ask: {}: options stand behind TEXT; `lafkundi ask --help` lists them",
            search.question.text
        );
        return FAILED;
    }
    match open(rt, search.path) {
        Ok(mut index) => ask::run(rt, &mut index, &search),
        Err(failure) => {
            let _ = eprintln!(rt; "lafkundi ask: {}: {failure}", search.path);
            FAILED
        }
    }
}

/// Whether what stands in the place of TEXT is an option: a text may begin with one hyphen, and not with two.
fn is_option(text: &str) -> bool {
    match text.strip_prefix("-k") {
        Some(number) => number.as_bytes().iter().all(u8::is_ascii_digit),
        None => text.starts_with("--"),
    }
}

/// Returns the search that is asked for.
fn search_in<'g>(given: &'g ArgMatches<'_>) -> Search<'g> {
    let field_scores = if given.get_flag("best-field") {
        FieldScores::Best
    } else {
        FieldScores::Sum
    };
    Search {
        path: text_of(given, "file"),
        question: Question {
            text: text_of(given, "text"),
            flat: given.get_flag("flat"),
            field_scores,
        },
        count: given.get_one::<usize>("k").unwrap_or(0),
        start: given.get_one::<usize>("from").unwrap_or(0),
        order: order_in(given),
        fields: given.get_strs("fields").unwrap_or(&[]),
        facets: given.get_str("facets"),
        counts: given.get_flag("count"),
        json: given.get_flag("json"),
    }
}

/// Returns the order that is asked for.
fn order_in<'g>(given: &'g ArgMatches<'_>) -> HitOrder<'g> {
    if given.get_flag("newest") {
        return HitOrder::Newest;
    }
    let Some(field) = given.get_str("sort") else {
        return HitOrder::Score;
    };
    match field.strip_prefix('-') {
        Some(name) => HitOrder::Field { name, falls: true },
        None => HitOrder::Field {
            name: field,
            falls: false,
        },
    }
}
