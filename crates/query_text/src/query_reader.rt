//! Pieces read as a query: the groups that are open, and what stands in them.

ghost use Rattle.std.specs.Prelude.{◌≡◌, IfOk, Ok, map};
ghost use Rattle.query_text.specs.Clauses.{clause_of};
ghost use Rattle.query_text.specs.Cutting.{piece_of};
ghost use Rattle.query_text.specs.Groups.{group_of, reading_of};
ghost use Rattle.query_text.specs.Reading as definitions;
ghost use Rattle.query_text.specs.Refusals.{Gives, GivesAt, at_offset};
ghost use Rattle.query_trees.specs.Queries.{occur_of, query_of};

use crate::alternative::{
    Alternative, alternative_query, any_of, is_empty, nothing_asked, with_clause,
};
use crate::clauses::{boosted, leaves_out, quoted_clause, word_clause};
use crate::heads::{cut_boost, head_of};
use crate::operators::{Operator, cant_follow, is_foreign, is_not, operator_in};
use crate::phrase::Vocabulary;
use crate::pieces::{Form, Piece, pieces_of};
use crate::refusal::{Reason, Refusal};
use crate::typed_marks::{offset_in, plain_text, signs_of};
use query_trees::{AnyQuery, Occur};
use std::alloc::{AllocError, Global};

/// The most parentheses that are open at once.
const MAX_GROUPS: usize = 16;

/// A group that is open: what a text, or a pair of parentheses, has so far.
#[derive(Drop)]
struct Group {
    offset: usize,
    occur: Occur,
    /// Whether what matches it is left out.
    is_excluded: bool,
    /// The alternatives before the last `OR`.
    before: Vec<AnyQuery>,
    last: Alternative,
}

/// The groups that are open: the innermost, and those round it, the nearest last.
#[derive(Drop)]
struct Reading {
    group: Group,
    outer: Vec<Group>,
    /// The operator for which something has to follow, and its offset.
    waiting: Option<(Operator, usize)>,
}

/// Reads `text` as a query, whose words and phrases mean what `words` says.
pub fn read_text<V: Vocabulary>(alloc: Global, words: &V, text: &[u8]) -> Result<AnyQuery, Refusal>
    ensures { GivesAt query_of result (definitions.read (V.queries words.now) text.now) }
{
    let signs = signs_of(alloc, text)?;
    let plain = plain_text(alloc, &signs)?;
    match read_plain(alloc, words, &plain) {
        Ok(query) => Ok(query),
        Err(refusal) => Err(Refusal {
            reason: refusal.reason,
            place: offset_in(text, &signs, refusal.place),
        }),
    }
}

/// Reads `text`, in which no typed mark stands, as a query.
fn read_plain<V: Vocabulary>(alloc: Global, words: &V, text: &[u8]) -> Result<AnyQuery, Refusal>
    ensures { GivesAt query_of result (definitions.read_plain (V.queries words.now) text.now) }
{
    let pieces = pieces_of(alloc, text)?;
    let reading = read_pieces(alloc, words, &pieces)?;
    let offset = end_offset(&reading);
    match ended(alloc, reading) {
        Ok(query) => Ok(query),
        Err(reason) => Err(Refusal {
            reason,
            place: offset,
        }),
    }
}

/// Returns the offset at which it is seen that something is wanting at the end.
fn end_offset(reading: &Reading) -> usize
    ensures { result ≡ definitions.end_offset (reading_of reading.now) }
{
    match reading.waiting {
        Some((_operator, offset)) => offset,
        None => reading.group.offset,
    }
}

/// Reads `pieces`.
fn read_pieces<V: Vocabulary>(
    alloc: Global,
    words: &V,
    pieces: &[Piece<'_>],
) -> Result<Reading, Refusal>
    ensures { GivesAt reading_of result
        (definitions.past_pieces (V.queries words.now) definitions.nothing_read (map piece_of pieces.now)) }
{
    let mut reading = nothing_read(alloc);
    for piece in pieces {
        reading = past_piece_at(alloc, words, reading, piece)?;
    }
    Ok(reading)
}

/// Makes the reading before the first piece.
fn nothing_read(alloc: Global) -> Reading
    ensures { reading_of result ≡ definitions.nothing_read }
{
    Reading {
        group: new_group(alloc, 0, Occur::Should, false),
        outer: Vec::new(alloc),
        waiting: None,
    }
}

/// Makes a group in which nothing stands yet, in one that is left out or not.
fn new_group(alloc: Global, offset: usize, occur: Occur, is_excluded: bool) -> Group
    ensures { group_of result ≡ definitions.new_group offset (occur_of occur) is_excluded }
{
    Group {
        offset,
        occur,
        is_excluded: is_excluded || leaves_out(occur),
        before: Vec::new(alloc),
        last: nothing_asked(alloc),
    }
}

/// Reads a piece; a refusal has its offset.
fn past_piece_at<V: Vocabulary>(
    alloc: Global,
    words: &V,
    reading: Reading,
    piece: &Piece<'_>,
) -> Result<Reading, Refusal>
    ensures { GivesAt reading_of result (at_offset piece.now.offset
        (definitions.past_piece (V.queries words.now) (reading_of reading) (piece_of piece.now))) }
{
    match past_piece(alloc, words, reading, piece) {
        Ok(next) => Ok(next),
        Err(reason) => Err(Refusal {
            reason,
            place: piece.offset,
        }),
    }
}

/// Reads a piece.
fn past_piece<V: Vocabulary>(
    alloc: Global,
    words: &V,
    reading: Reading,
    piece: &Piece<'_>,
) -> Result<Reading, Reason>
    ensures { Gives reading_of result
        (definitions.past_piece (V.queries words.now) (reading_of reading) (piece_of piece.now)) }
{
    if is_stray(reading.waiting, piece) {
        return Err(Reason::StrayOperator);
    }
    past_next(alloc, words, reading, piece)
}

/// Whether `piece` can't follow the operator before it.
fn is_stray(waiting: Option<(Operator, usize)>, piece: &Piece<'_>) -> bool
    ensures { result ≡ definitions.is_stray waiting (piece_of piece.now) }
{
    let Some((operator, _offset)) = waiting else {
        return false;
    };
    match piece.form {
        Form::Close => true,
        Form::Word | Form::Quoted | Form::Unclosed | Form::Open => cant_follow(
            operator, piece.head,
        ),
    }
}

/// Reads a piece that can follow what is before it.
fn past_next<V: Vocabulary>(
    alloc: Global,
    words: &V,
    reading: Reading,
    piece: &Piece<'_>,
) -> Result<Reading, Reason>
    ensures { Gives reading_of result
        (definitions.past_next (V.queries words.now) (reading_of reading) (piece_of piece.now)) }
{
    match piece.form {
        Form::Word => past_word(alloc, words, reading, piece),
        Form::Quoted => {
            let clause = quoted_clause(alloc, words, excludes(&reading), piece)?;
            past_clause(reading, clause)
        }
        Form::Unclosed => Err(Reason::UnclosedQuote),
        Form::Open => past_open(alloc, reading, piece),
        Form::Close => past_close(alloc, reading, piece),
    }
}

/// Whether what matches the next clause is left out, whatever its mark.
fn excludes(reading: &Reading) -> bool
    ensures { result ≡ definitions.excludes (reading_of reading.now) }
{
    behind_not(reading.waiting) || reading.group.is_excluded
}

/// Whether `NOT` stands before.
fn behind_not(waiting: Option<(Operator, usize)>) -> bool
    ensures { result ≡ definitions.behind_not waiting }
{
    match waiting {
        Some((operator, _offset)) => is_not(operator),
        None => false,
    }
}

/// Returns the mark behind an operator.
fn mark_behind(waiting: Option<(Operator, usize)>, occur: Occur) -> Occur
    ensures { occur_of result ≡ definitions.mark_behind waiting (occur_of occur) }
{
    if behind_not(waiting) {
        Occur::MustNot
    } else {
        occur
    }
}

/// Reads a word, which may be an operator.
fn past_word<V: Vocabulary>(
    alloc: Global,
    words: &V,
    reading: Reading,
    piece: &Piece<'_>,
) -> Result<Reading, Reason>
    ensures { Gives reading_of result
        (definitions.past_word (V.queries words.now) (reading_of reading) (piece_of piece.now)) }
{
    match operator_in(piece.head) {
        Some(operator) => past_operator(alloc, reading, piece.offset, operator),
        None => {
            let clause = word_clause(alloc, words, excludes(&reading), piece.head)?;
            past_clause(reading, clause)
        }
    }
}

/// Reads an operator.
fn past_operator(
    alloc: Global,
    reading: Reading,
    offset: usize,
    operator: Operator,
) -> Result<Reading, Reason>
    ensures { Gives reading_of result (definitions.past_operator (reading_of reading) offset operator) }
{
    match operator {
        Operator::And => past_and(reading, offset),
        Operator::Or => past_or(alloc, reading),
        Operator::Not => Ok(with_waiting(reading, Operator::Not, offset)),
    }
}

/// Reads `AND`, which stands behind a clause.
fn past_and(reading: Reading, offset: usize) -> Result<Reading, Reason>
    ensures { Gives reading_of result (definitions.past_and (reading_of reading) offset) }
{
    if is_empty(&reading.group.last) {
        return Err(Reason::StrayOperator);
    }
    Ok(with_waiting(reading, Operator::And, offset))
}

/// Keeps the operator at `offset`, for which something has to follow.
fn with_waiting(reading: Reading, operator: Operator, offset: usize) -> Reading
    ensures { reading_of result ≡ definitions.waiting_for (reading_of reading) operator offset }
{
    let Reading {
        group,
        outer,
        waiting: _,
    } = reading;
    Reading {
        group,
        outer,
        waiting: Some((operator, offset)),
    }
}

/// Appends a clause to the innermost group.
fn past_clause(reading: Reading, clause: (Occur, AnyQuery)) -> Result<Reading, Reason>
    ensures { Gives reading_of result (Ok (definitions.past_clause (reading_of reading) (clause_of clause))) }
{
    let Reading {
        group,
        outer,
        waiting,
    } = reading;
    let (occur, query) = clause;
    let group = asks(group, (mark_behind(waiting, occur), query))?;
    Ok(Reading {
        group,
        outer,
        waiting: None,
    })
}

/// Appends a clause to `group`.
fn asks(group: Group, clause: (Occur, AnyQuery)) -> Result<Group, AllocError>
    ensures { IfOk result (λ longer. group_of longer ≡ definitions.asks (clause_of clause) (group_of group)) }
{
    let Group {
        offset,
        occur,
        is_excluded,
        before,
        last,
    } = group;
    let (asked, query) = clause;
    let last = with_clause(last, asked, query)?;
    Ok(Group {
        offset,
        occur,
        is_excluded,
        before,
        last,
    })
}

/// Ends an alternative of the innermost group.
fn past_or(alloc: Global, reading: Reading) -> Result<Reading, Reason>
    ensures { Gives reading_of result (definitions.past_or (reading_of reading)) }
{
    let Reading {
        group,
        outer,
        waiting,
    } = reading;
    let (offset, occur, is_excluded) = (group.offset, group.occur, group.is_excluded);
    let before = alternatives(alloc, group)?;
    let group = Group {
        offset,
        occur,
        is_excluded,
        before,
        last: nothing_asked(alloc),
    };
    Ok(Reading {
        group,
        outer,
        waiting,
    })
}

/// Returns the queries of the alternatives of `group`.
fn alternatives(alloc: Global, group: Group) -> Result<Vec<AnyQuery>, Reason>
    ensures { Gives (λ queries. map query_of queries.items) result (definitions.alternatives (group_of group)) }
{
    if is_empty(&group.last) {
        return Err(Reason::Nothing);
    }
    let Group {
        mut before,
        last,
        offset: _,
        occur: _,
        is_excluded: _,
    } = group;
    before.push(alternative_query(alloc, last)?)?;
    Ok(before)
}

/// Opens a group.
fn past_open(alloc: Global, reading: Reading, piece: &Piece<'_>) -> Result<Reading, Reason>
    ensures { Gives reading_of result (definitions.past_open (reading_of reading) (piece_of piece.now)) }
{
    let head = head_of(piece.head);
    if is_foreign(head.rest) {
        return Err(Reason::ForeignOperator);
    }
    if !head.rest.is_empty() {
        return Err(Reason::NoSpace);
    }
    if head.field.is_some() {
        return Err(Reason::FieldOfGroup);
    }
    if reading.outer.len() >= MAX_GROUPS {
        return Err(Reason::TooDeep);
    }
    let is_excluded = excludes(&reading);
    let occur = mark_behind(reading.waiting, head.occur);
    let Reading {
        group,
        mut outer,
        waiting: _,
    } = reading;
    outer.push(group)?;
    Ok(Reading {
        group: new_group(alloc, piece.offset, occur, is_excluded),
        outer,
        waiting: None,
    })
}

/// Closes the innermost group, which is a clause of the one round it.
fn past_close(alloc: Global, reading: Reading, piece: &Piece<'_>) -> Result<Reading, Reason>
    ensures { Gives reading_of result (definitions.past_close (reading_of reading) (piece_of piece.now)) }
{
    let Reading {
        group,
        mut outer,
        waiting: _,
    } = reading;
    let Some(enclosing) = outer.pop() else {
        return Err(Reason::StrayClose);
    };
    let clause = group_clause(alloc, group, piece.tail)?;
    let group = asks(enclosing, clause)?;
    Ok(Reading {
        group,
        outer,
        waiting: None,
    })
}

/// Makes the clause of a group that closes, with what stands right behind it.
fn group_clause(alloc: Global, group: Group, tail: &[u8]) -> Result<(Occur, AnyQuery), Reason>
    ensures { Gives clause_of result (definitions.group_clause (group_of group) tail.now) }
{
    let occur = group.occur;
    let queries = alternatives(alloc, group)?;
    let (rest, boost) = cut_boost(tail)?;
    if !rest.is_empty() {
        return Err(Reason::NoSpace);
    }
    let query = any_of(alloc, queries)?;
    Ok((occur, boosted(alloc, boost, query)?))
}

/// Makes the query of the whole text.
fn ended(alloc: Global, reading: Reading) -> Result<AnyQuery, Reason>
    ensures { Gives query_of result (definitions.ended (reading_of reading)) }
{
    if reading.waiting.is_some() {
        return Err(Reason::StrayOperator);
    }
    if !reading.outer.is_empty() {
        return Err(Reason::UnclosedGroup);
    }
    let Reading {
        group,
        outer: _,
        waiting: _,
    } = reading;
    let queries = alternatives(alloc, group)?;
    Ok(any_of(alloc, queries)?)
}
