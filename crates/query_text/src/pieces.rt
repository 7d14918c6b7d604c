//! Pieces of a text: words, phrases and parentheses.

ghost use Rattle.std.specs.Prelude.{◌+◌, ◌++◌, ◌<◌, ◌≡◌, ◌≤◌, IfOk, OnOk, length, map, slice_index, slice_range};
ghost use Rattle.query_text.specs.Cutting.{HasBegun, mode_at, piece_of};
ghost use Rattle.query_text.specs.Pieces as definitions;

use std::alloc::{AllocError, Global};

/// What a byte is outside of quotation marks.
#[derive(Clone, Copy, Debug)]
pub enum Class {
    Gap,
    Quote,
    Opening,
    Closing,
    Part,
}

/// The form of a piece.
#[derive(Clone, Copy, Debug)]
pub enum Form {
    Word,
    Quoted,
    Unclosed,
    Open,
    Close,
}

/// A piece of a text.
#[derive(Clone, Copy, Debug)]
pub struct Piece<'a> {
    pub form: Form,
    /// The offset of its first byte.
    pub offset: usize,
    /// A whole word, or what stands right before a phrase or an opening parenthesis.
    pub head: &'a [u8],
    /// What a phrase has between its quotation marks.
    pub text: &'a [u8],
    /// What stands right behind a phrase or a closing parenthesis.
    pub tail: &'a [u8],
}

/// Where the cutting of a text stands: between pieces, or in one that has begun.
#[derive(Clone, Copy)]
enum Mode<'a> {
    Between,
    Running {
        start: usize,
    },
    Quoting {
        start: usize,
        head: &'a [u8],
        from: usize,
    },
    Trailing {
        piece: Piece<'a>,
        from: usize,
    },
}

/// Cuts `text` into pieces.
pub fn pieces_of<'a>(alloc: Global, text: &'a [u8]) -> Result<Vec<Piece<'a>>, AllocError>
    ensures { IfOk result (λ pieces. map piece_of pieces.items ≡ definitions.pieces_of text.now) }
{
    let mut pieces = Vec::new(alloc);
    let mut mode = Mode::Between;
    for offset in 0..text.len() {
        mode = past_byte(&mut pieces, text, offset, mode)?;
    }
    push_last(&mut pieces, text, mode)?;
    Ok(pieces)
}

/// Reads the byte at `offset`: appends the pieces that end there, and returns the mode behind it.
fn past_byte<'a>(
    pieces: &mut Vec<Piece<'a>>,
    text: &'a [u8],
    offset: usize,
    mode: Mode<'a>,
) -> Result<Mode<'a>, AllocError>
    requires within { offset < length text.now }
    requires begun { HasBegun offset mode }
    ensures pieces { OnOk result (map piece_of pieces.new.items ≡ map piece_of pieces.old.items
        ++ definitions.done (mode_at text.now offset mode.entry) offset (slice_index text.now offset)) }
    ensures mode { IfOk result (λ next. mode_at text.now (offset + 1) next
        ≡ definitions.after (mode_at text.now offset mode.entry) offset (slice_index text.now offset)) }
    ensures begun { IfOk result (λ next. HasBegun (offset + 1) next) }
{
    match mode {
        Mode::Between => begin(pieces, text, offset),
        Mode::Running { start } => past_run(pieces, text, offset, start),
        Mode::Quoting { start, head, from } => Ok(past_quoted(text, offset, start, head, from)),
        Mode::Trailing { piece, from } => past_tail(pieces, text, offset, piece, from),
    }
}

/// Returns what the byte is outside of quotation marks.
fn class_of(byte: u8) -> Class
    ensures { result ≡ definitions.class_of byte }
{
    match byte {
        0..=32 => Class::Gap,
        b'"' => Class::Quote,
        b'(' => Class::Opening,
        b')' => Class::Closing,
        _ => Class::Part,
    }
}

/// Makes a piece without a text and a tail.
fn bare<'a>(form: Form, offset: usize, head: &'a [u8]) -> Piece<'a>
    ensures { piece_of result ≡ definitions.bare form offset head.now }
{
    Piece {
        form,
        offset,
        head,
        text: b"",
        tail: b"",
    }
}

/// Begins a piece with the byte at `offset`, which nothing stands right before.
#[tactic(auto, using(std::proofs::lemmas::List::Edits::between_none))]
fn begin<'a>(
    pieces: &mut Vec<Piece<'a>>,
    text: &'a [u8],
    offset: usize,
) -> Result<Mode<'a>, AllocError>
    requires within { offset < length text.now }
    ensures pieces { OnOk result (map piece_of pieces.new.items
        ≡ map piece_of pieces.old.items ++ definitions.alone offset (slice_index text.now offset)) }
    ensures mode { IfOk result (λ next. mode_at text.now (offset + 1) next
        ≡ definitions.begun offset (slice_index text.now offset)) }
    ensures begun { IfOk result (λ next. HasBegun (offset + 1) next) }
{
    match class_of(text[offset]) {
        Class::Gap => Ok(Mode::Between),
        Class::Opening => {
            pieces.push(bare(Form::Open, offset, b""))?;
            Ok(Mode::Between)
        }
        Class::Quote => Ok(Mode::Quoting {
            start: offset,
            head: b"",
            from: offset + 1,
        }),
        Class::Closing => Ok(Mode::Trailing {
            piece: bare(Form::Close, offset, b""),
            from: offset + 1,
        }),
        Class::Part => Ok(Mode::Running { start: offset }),
    }
}

/// Reads a byte behind a run that began at `start`.
#[tactic(auto, using(std::proofs::lemmas::List::Edits::between_more))]
fn past_run<'a>(
    pieces: &mut Vec<Piece<'a>>,
    text: &'a [u8],
    offset: usize,
    start: usize,
) -> Result<Mode<'a>, AllocError>
    requires within { offset < length text.now }
    requires begun { start ≤ offset }
    ensures pieces { OnOk result (map piece_of pieces.new.items ≡ map piece_of pieces.old.items
        ++ definitions.done (definitions.running start (slice_range text.now start offset)) offset
        (slice_index text.now offset)) }
    ensures mode { IfOk result (λ next. mode_at text.now (offset + 1) next
        ≡ definitions.after (definitions.running start (slice_range text.now start offset)) offset
        (slice_index text.now offset)) }
    ensures begun { IfOk result (λ next. HasBegun (offset + 1) next) }
{
    let run = &text[start..offset];
    match class_of(text[offset]) {
        Class::Part => Ok(Mode::Running { start }),
        Class::Quote => Ok(Mode::Quoting {
            start,
            head: run,
            from: offset + 1,
        }),
        Class::Opening => {
            pieces.push(bare(Form::Open, start, run))?;
            Ok(Mode::Between)
        }
        Class::Gap | Class::Closing => {
            pieces.push(bare(Form::Word, start, run))?;
            begin(pieces, text, offset)
        }
    }
}

/// Reads a byte of a phrase, whose text began at `from`.
#[tactic(auto, using(std::proofs::lemmas::List::Edits::between_more))]
fn past_quoted<'a>(
    text: &'a [u8],
    offset: usize,
    start: usize,
    head: &'a [u8],
    from: usize,
) -> Mode<'a>
    requires within { offset < length text.now }
    requires begun { from ≤ offset }
    ensures mode { mode_at text.now (offset + 1) result ≡ definitions.after
        (definitions.quoting start head.now (slice_range text.now from offset)) offset (slice_index text.now offset) }
    ensures begun { HasBegun (offset + 1) result }
{
    if text[offset] != b'"' {
        return Mode::Quoting { start, head, from };
    }
    let piece = Piece {
        form: Form::Quoted,
        offset: start,
        head,
        text: &text[from..offset],
        tail: b"",
    };
    Mode::Trailing {
        piece,
        from: offset + 1,
    }
}

/// Reads a byte behind a phrase or a parenthesis, whose tail began at `from`.
#[tactic(auto, using(std::proofs::lemmas::List::Edits::between_more))]
fn past_tail<'a>(
    pieces: &mut Vec<Piece<'a>>,
    text: &'a [u8],
    offset: usize,
    piece: Piece<'a>,
    from: usize,
) -> Result<Mode<'a>, AllocError>
    requires within { offset < length text.now }
    requires begun { from ≤ offset }
    ensures pieces { OnOk result (map piece_of pieces.new.items ≡ map piece_of pieces.old.items ++ definitions.done
        (definitions.trailing (piece_of piece.entry) (slice_range text.now from offset)) offset
        (slice_index text.now offset)) }
    ensures mode { IfOk result (λ next. mode_at text.now (offset + 1) next ≡ definitions.after
        (definitions.trailing (piece_of piece.entry) (slice_range text.now from offset)) offset
        (slice_index text.now offset)) }
    ensures begun { IfOk result (λ next. HasBegun (offset + 1) next) }
{
    match class_of(text[offset]) {
        Class::Part => Ok(Mode::Trailing { piece, from }),
        Class::Gap | Class::Quote | Class::Opening | Class::Closing => {
            pieces.push(with_tail(piece, &text[from..offset]))?;
            begin(pieces, text, offset)
        }
    }
}

/// Returns the piece with the tail `tail`.
fn with_tail<'a>(piece: Piece<'a>, tail: &'a [u8]) -> Piece<'a>
    ensures { piece_of result ≡ record (piece_of piece.entry) { tail = tail.now } }
{
    Piece {
        form: piece.form,
        offset: piece.offset,
        head: piece.head,
        text: piece.text,
        tail,
    }
}

/// Appends the piece that the end of `text` ends.
fn push_last<'a>(
    pieces: &mut Vec<Piece<'a>>,
    text: &'a [u8],
    mode: Mode<'a>,
) -> Result<(), AllocError>
    requires { HasBegun (length text.now) mode }
    ensures { OnOk result (map piece_of pieces.new.items ≡ map piece_of pieces.old.items
        ++ definitions.last (mode_at text.now (length text.now) mode.entry)) }
{
    match mode {
        Mode::Between => {}
        Mode::Running { start } => pieces.push(bare(Form::Word, start, &text[start..]))?,
        Mode::Quoting { start, head, .. } => pieces.push(bare(Form::Unclosed, start, head))?,
        Mode::Trailing { piece, from } => pieces.push(with_tail(piece, &text[from..]))?,
    }
    Ok(())
}
