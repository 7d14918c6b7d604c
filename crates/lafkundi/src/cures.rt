//! What to do about each refusal.

use index::Fault;

/// Returns what is wrong, and what to do about it.
pub(crate) fn cure(fault: Fault) -> &'static str {
    match fault {
        Fault::Closed | Fault::WriterClosed | Fault::NotOpen | Fault::AlreadyOpen =>
            "a call before it failed; ask again",
        Fault::OutOfMemory => "no memory is found",
        Fault::Device => "the file can't be read or written, or another program has it",
        Fault::Limit =>
            "a limit of the file is passed: a document's stored values, or a segment's documents",
        Fault::Damaged(_) => "the file is damaged; `lafkundi inspect --check` tells where",
        Fault::NoIndex => "the file is no index; `lafkundi create` makes one",
        Fault::NotEmpty => "the file has something already; name another one",
        Fault::LineTooLong => "a line has at most 16777216 bytes",
        Fault::ReadFault => "the input can't be read",
        Fault::WriteFault => "the output can't be written",
        _ => cure_of_fields(fault),
    }
}

/// Returns what is wrong with a schema, or with a field of a document or of a term.
fn cure_of_fields(fault: Fault) -> &'static str {
    match fault {
        Fault::TooManyFields => "an index has at most 65536 fields",
        Fault::UnknownTokenizer =>
            "the analyzers are `raw`, `default`, `words18`, `plain18` and `english18`",
        Fault::DuplicateName => "a field's name comes twice",
        Fault::BadName => "a field's name is empty, or begins with `-`",
        Fault::BadSchema => "docs/REQUESTS.md tells what a schema has",
        Fault::BadSettings => "docs/REQUESTS.md tells the settings and their ranges",
        Fault::NotAnObject => "a document is an object of JSON on one line",
        Fault::NotIndexable => "the value nests too deep, or can't be indexed in its field",
        Fault::FloatValue => "numbers are whole",
        Fault::OverflowError => "a number or a date is out of its field's range",
        Fault::TypeError => "a value is of another type than its field",
        Fault::ParseError => "a date is written 2025-10-07T00:00:00Z, an address 10.0.0.1",
        Fault::FacetParseError => "a label begins with `/`, as /2025/10/07",
        Fault::InvalidBase64 => "bytes are written in base64",
        Fault::UnknownField | Fault::FieldNotFound => "the index has no such field",
        Fault::NotIndexed => "that field isn't indexed",
        Fault::BadTerm =>
            "a term is written {\"field\":NAME,\"value\":V}, with a value of the field's type",
        _ => "docs/REQUESTS.md tells more",
    }
}
