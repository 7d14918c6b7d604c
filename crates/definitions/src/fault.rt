//! Every refusal, by its name.

ghost use Rattle.std.specs.Prelude.{◌≡◌};
ghost use Rattle.definitions.specs.FaultNames.{name_of, reply_text};
ghost use Rattle.definitions.specs.declared.fault.Fault.TheVariants.{OutOfMemory};

use std::alloc::{AllocError, AllocFailed};
use std::error::Error;
use std::fmt::{self, Display, Formatter};

/// Why a call was refused. It is the error of every call of the index.
#[derive(Clone, Copy, Debug, PartialEq, Eq)]
pub enum Fault {
    /// The index was closed by a failed write; it must be opened again.
    Closed,
    /// Nothing can be written any more until the index is opened again; searches answer the last commit.
    WriterClosed,
    /// A request for memory was refused.
    OutOfMemory,
    /// The device failed.
    Device,
    /// A limit of the formats would be passed.
    Limit,
    /// Bytes are in no layout; in a file, from the gate on that is named.
    Damaged(Option<u64>),
    /// The device holds no index.
    NoIndex,
    /// The device holds a byte already.
    NotEmpty,
    /// More fields than a schema or an index takes.
    TooManyFields,
    /// A field's tokenizer is none of the analyzer's.
    UnknownTokenizer,
    /// A document's text is no JSON object.
    NotAnObject,
    /// A JSON value is of a kind that the field doesn't take.
    TypeError,
    /// A number or a date is out of range.
    OverflowError,
    /// A text isn't read as the field's value.
    ParseError,
    /// A text isn't standard base64.
    InvalidBase64,
    /// A JSON value holds a float.
    FloatValue,
    /// A value can't be indexed in its field, or nests too deep.
    NotIndexable,
    /// A range names no segment, or more than there are.
    BadRange,
    /// A query has too many nodes on a path.
    TooDeep,
    /// A field's number is past the schema.
    UnknownField,
    /// The field isn't indexed.
    NotIndexed,
    /// A term isn't of its field's kind.
    TypeMismatch,
    /// A phrase asks for a field without positions.
    NoPositions,
    /// A phrase asks for a term that is no text.
    NotText,
    /// An offset in a phrase is too large.
    OffsetTooLarge,
    /// A phrase prefix has no term but the prefix.
    NoWholeTerm,
    /// A phrase prefix has a limit of expansions.
    PartialExpansion,
    /// A tie breaker is outside 0 to 1000.
    BadTieBreaker,
    /// A boost, a score or what they add up to is out of range.
    ScoreTooLarge,
    /// A field's name comes twice.
    DuplicateName,
    /// A field's name is empty or begins with `-`.
    BadName,
    /// A schema's JSON has another form.
    BadSchema,
    /// Settings have another form, or a value out of range.
    BadSettings,
    /// A term has another form.
    BadTerm,
    /// A query's JSON has another form.
    BadQuery,
    /// A line is no request.
    BadRequest,
    /// A line is longer than a line may be.
    LineTooLong,
    /// No index is open.
    NotOpen,
    /// An index is open already.
    AlreadyOpen,
    /// The input can't be read.
    ReadFault,
    /// The output can't be written.
    WriteFault,
    /// A text is no facet's path.
    FacetParseError,
    /// The positions of tokens fall.
    BadTokens,
    /// An argument is out of range.
    InvalidArgument,
    /// No field has that name.
    FieldNotFound,
}

impl Fault {
    /// The variant's name, which replies give.
    pub fn name(&self) -> &'static str
        ensures { result.now ≡ name_of self.now }
    {
        match self {
            Fault::Closed => "Closed",
            Fault::WriterClosed => "WriterClosed",
            Fault::OutOfMemory => "OutOfMemory",
            Fault::Device => "Device",
            Fault::Limit => "Limit",
            Fault::Damaged(_) => "Damaged",
            Fault::NoIndex => "NoIndex",
            Fault::NotEmpty => "NotEmpty",
            Fault::TooManyFields => "TooManyFields",
            Fault::UnknownTokenizer => "UnknownTokenizer",
            Fault::NotAnObject => "NotAnObject",
            Fault::TypeError => "TypeError",
            Fault::OverflowError => "OverflowError",
            Fault::ParseError => "ParseError",
            Fault::InvalidBase64 => "InvalidBase64",
            Fault::FloatValue => "FloatValue",
            Fault::NotIndexable => "NotIndexable",
            Fault::BadRange => "BadRange",
            Fault::TooDeep => "TooDeep",
            Fault::UnknownField => "UnknownField",
            Fault::NotIndexed => "NotIndexed",
            Fault::TypeMismatch => "TypeMismatch",
            Fault::NoPositions => "NoPositions",
            Fault::NotText => "NotText",
            Fault::OffsetTooLarge => "OffsetTooLarge",
            Fault::NoWholeTerm => "NoWholeTerm",
            Fault::PartialExpansion => "PartialExpansion",
            Fault::BadTieBreaker => "BadTieBreaker",
            Fault::ScoreTooLarge => "ScoreTooLarge",
            Fault::DuplicateName => "DuplicateName",
            Fault::BadName => "BadName",
            Fault::BadSchema => "BadSchema",
            Fault::BadSettings => "BadSettings",
            Fault::BadTerm => "BadTerm",
            Fault::BadQuery => "BadQuery",
            Fault::BadRequest => "BadRequest",
            Fault::LineTooLong => "LineTooLong",
            Fault::NotOpen => "NotOpen",
            Fault::AlreadyOpen => "AlreadyOpen",
            Fault::ReadFault => "ReadFault",
            Fault::WriteFault => "WriteFault",
            Fault::FacetParseError => "FacetParseError",
            Fault::BadTokens => "BadTokens",
            Fault::InvalidArgument => "InvalidArgument",
            Fault::FieldNotFound => "FieldNotFound",
        }
    }

    /// The whole reply to a request that is refused, as compact JSON. It takes no memory.
    pub fn reply(&self) -> &'static str
        ensures { result.now ≡ reply_text self.now }
    {
        match self {
            Fault::Closed => "{\"error\":\"Closed\"}",
            Fault::WriterClosed => "{\"error\":\"WriterClosed\"}",
            Fault::OutOfMemory => "{\"error\":\"OutOfMemory\"}",
            Fault::Device => "{\"error\":\"Device\"}",
            Fault::Limit => "{\"error\":\"Limit\"}",
            Fault::Damaged(_) => "{\"error\":\"Damaged\"}",
            Fault::NoIndex => "{\"error\":\"NoIndex\"}",
            Fault::NotEmpty => "{\"error\":\"NotEmpty\"}",
            Fault::TooManyFields => "{\"error\":\"TooManyFields\"}",
            Fault::UnknownTokenizer => "{\"error\":\"UnknownTokenizer\"}",
            Fault::NotAnObject => "{\"error\":\"NotAnObject\"}",
            Fault::TypeError => "{\"error\":\"TypeError\"}",
            Fault::OverflowError => "{\"error\":\"OverflowError\"}",
            Fault::ParseError => "{\"error\":\"ParseError\"}",
            Fault::InvalidBase64 => "{\"error\":\"InvalidBase64\"}",
            Fault::FloatValue => "{\"error\":\"FloatValue\"}",
            Fault::NotIndexable => "{\"error\":\"NotIndexable\"}",
            Fault::BadRange => "{\"error\":\"BadRange\"}",
            Fault::TooDeep => "{\"error\":\"TooDeep\"}",
            Fault::UnknownField => "{\"error\":\"UnknownField\"}",
            Fault::NotIndexed => "{\"error\":\"NotIndexed\"}",
            Fault::TypeMismatch => "{\"error\":\"TypeMismatch\"}",
            Fault::NoPositions => "{\"error\":\"NoPositions\"}",
            Fault::NotText => "{\"error\":\"NotText\"}",
            Fault::OffsetTooLarge => "{\"error\":\"OffsetTooLarge\"}",
            Fault::NoWholeTerm => "{\"error\":\"NoWholeTerm\"}",
            Fault::PartialExpansion => "{\"error\":\"PartialExpansion\"}",
            Fault::BadTieBreaker => "{\"error\":\"BadTieBreaker\"}",
            Fault::ScoreTooLarge => "{\"error\":\"ScoreTooLarge\"}",
            Fault::DuplicateName => "{\"error\":\"DuplicateName\"}",
            Fault::BadName => "{\"error\":\"BadName\"}",
            Fault::BadSchema => "{\"error\":\"BadSchema\"}",
            Fault::BadSettings => "{\"error\":\"BadSettings\"}",
            Fault::BadTerm => "{\"error\":\"BadTerm\"}",
            Fault::BadQuery => "{\"error\":\"BadQuery\"}",
            Fault::BadRequest => "{\"error\":\"BadRequest\"}",
            Fault::LineTooLong => "{\"error\":\"LineTooLong\"}",
            Fault::NotOpen => "{\"error\":\"NotOpen\"}",
            Fault::AlreadyOpen => "{\"error\":\"AlreadyOpen\"}",
            Fault::ReadFault => "{\"error\":\"ReadFault\"}",
            Fault::WriteFault => "{\"error\":\"WriteFault\"}",
            Fault::FacetParseError => "{\"error\":\"FacetParseError\"}",
            Fault::BadTokens => "{\"error\":\"BadTokens\"}",
            Fault::InvalidArgument => "{\"error\":\"InvalidArgument\"}",
            Fault::FieldNotFound => "{\"error\":\"FieldNotFound\"}",
        }
    }
}

// By hand, since the derive writes and proves an arm for each variant.
impl Display for Fault {
    fn fmt<W: fmt::Write>(&self, f: &mut Formatter<W>) -> fmt::Result {
        f.write_str(self.name())
    }
}

impl Error for Fault {}

impl From<AllocError> for Fault {
    ghost from_gives = { λ _ fault. fault ≡ OutOfMemory };

    fn from(_: AllocError) -> Self {
        Fault::OutOfMemory
    }
}

impl<T: Drop> From<AllocFailed<T>> for Fault {
    ghost from_gives = { λ _ fault. fault ≡ OutOfMemory };

    fn from(_: AllocFailed<T>) -> Self {
        Fault::OutOfMemory
    }
}
