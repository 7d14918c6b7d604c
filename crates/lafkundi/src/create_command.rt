//! `lafkundi create`: makes an index in a file.

use crate::failure::Failure;
use crate::field_lists::{KINDS, schema_of_lists};
use crate::words::{file, text_of};
use clap::{Arg, ArgAction, ArgMatches, Command};
use engine::parse_json;
use file_run::{Seeded, open_device};
use index::{Fault, Index, Schema, Settings};
use languages::Languages;
use serde_json::Value as Json;
use std::alloc::{AllocError, Global};
use std::fs;

/// The status where no index is made.
const FAILED: u8 = 2;

/// The analyzers that cut texts into words.
static ANALYZERS: [&str; 4] = ["plain18", "words18", "english18", "default"];

const ABOUT: &str = "Makes an index in a file, by the names of its fields";

const EXAMPLE: &str = "\
All fields are indexed and stored. NAMES stand behind each other with commas between, and each option may come again.
With --schema the file S has the list of fields as JSON, or an object with `schema` and `settings` as a line `create`
has, and no other option names fields.

Analyzers of texts: `plain18` (words of any script, without case and accents), `words18` (with accents), `english18`
(English stems of plain18's words), `default` (letters and digits, A to Z without case, others as they are).

The status is 0, and 2 where no index is made.

Example:
  lafkundi create mail.idx --raw id --text subject,body --date sent --facet label";

/// Makes the command line of `create`.
pub(crate) fn command<'a>(alloc: Global) -> Result<Command<'a>, AllocError> {
    let mut command = Command::new(alloc, "create")
        .about(ABOUT)
        .after_help(EXAMPLE)
        .arg(file(alloc))?
        .arg(schema(alloc)?)?
        .arg(analyzer(alloc))?;
    for (kind, help) in KINDS {
        command = command.arg(names(alloc, kind, help))?;
    }
    Ok(command)
}

/// Returns the option of a file with the schema, which no list of fields stands beside.
fn schema<'a>(alloc: Global) -> Result<Arg<'a>, AllocError> {
    let mut schema = Arg::new(alloc, "schema")
        .long("schema")
        .value_name("S")
        .help("A file with the fields as JSON")
        .conflicts_with("analyzer")?;
    for (kind, _help) in KINDS {
        schema = schema.conflicts_with(kind)?;
    }
    Ok(schema)
}

/// Returns the option of the analyzer of texts.
fn analyzer<'a>(alloc: Global) -> Arg<'a> {
    Arg::new(alloc, "analyzer")
        .long("analyzer")
        .value_name("NAME")
        .help("How texts are cut into words")
        .default_value("plain18")
        .value_parser(ANALYZERS.as_slice())
}

/// Returns the option of a list of fields of one kind.
fn names<'a>(alloc: Global, kind: &'a str, help: &'a str) -> Arg<'a> {
    Arg::new(alloc, kind)
        .long(kind)
        .value_name("NAMES")
        .help(help)
        .action(ArgAction::Append)
        .value_delimiter(',')
}

/// Makes the index that is asked for, and tells what it has.
pub(crate) fn run(rt: &HostRuntime, given: &ArgMatches<'_>) -> u8 {
    let path = text_of(given, "file");
    match create(rt, path, given) {
        Ok(num_fields) if println!(rt; "{path}: an index, fields: {num_fields}").is_ok() => 0,
        Ok(_num_fields) => FAILED,
        Err(failure) => {
            let _ = eprintln!(rt; "lafkundi create: {path}: {failure}");
            FAILED
        }
    }
}

/// Makes the index in the file at `path`; returns how many fields it has.
fn create(rt: &HostRuntime, path: &str, given: &ArgMatches<'_>) -> Result<usize, Failure> {
    let alloc = rt.alloc();
    let (schema, settings) = match given.get_str("schema") {
        Some(file) => read_schema(rt, file)?,
        None => {
            let schema = schema_of_lists(alloc, given)?;
            (schema, Settings::default(alloc)?)
        }
    };
    let num_fields = schema.num_fields();
    if num_fields == 0 {
        return Err(Failure::NoFields);
    }
    let device = open_device(rt, path).ok_or(Failure::Refused(Fault::Device))?;
    match Index::create(alloc, device, Seeded::draw(rt, Languages), schema, settings) {
        Ok(_index) => Ok(num_fields),
        Err(refused) => Err(Failure::Refused(refused.fault)),
    }
}

/// Reads the schema and the settings in the file at `path`.
fn read_schema(rt: &HostRuntime, path: &str) -> Result<(Schema, Settings), Failure> {
    let alloc = rt.alloc();
    let Ok(text) = fs::read_to_string(rt, path) else {
        return Err(Failure::NoSchema);
    };
    let Some(json) = parse_json(alloc, text.as_str())? else {
        return Err(Failure::Refused(Fault::BadSchema));
    };
    let fields: &Json = json.get("schema").unwrap_or(&json);
    let schema = Schema::from_json_value(alloc, fields)?;
    let settings = match json.get("settings") {
        Some(settings) => Settings::from_json_value(alloc, &schema, settings)?,
        None => Settings::default(alloc)?,
    };
    Ok((schema, settings))
}
