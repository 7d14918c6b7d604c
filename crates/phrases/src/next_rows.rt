//! Rows of the next documents of a phrase.

ghost use Rattle.std.specs.Prelude.{[], ◌++◌, ◌+◌, ◌<◌, ◌≡◌, ◌≤◌, ◌∷◌, filter, length, map, nat_lt, vec_capacity};
ghost use Rattle.docsets.specs.Entries.{IsRest, first, first_positions, first_score, most_positions, single};
ghost use Rattle.definitions.specs.Postings.{terminated};
ghost use Rattle.phrases.specs.Rows.{AreRows, most_count, row_entries, uncounted};

use crate::row::Row;
use crate::window::MANY_PLACES;
use common::{DocId, TERMINATED};
use docsets::Scorer;
use intersections::Positioned;

/// Appends `places` to `output`, which has the room.
fn append_all(places: &[u32], output: &mut Vec<u32>)
    requires { length output.old.items + length places.now ≤ vec_capacity output.old }
    ensures items { output.new.items ≡ output.old.items ++ places.now }
    ensures room { vec_capacity output.new ≡ vec_capacity output.old }
{
    for i in 0..places.len() {
        output.push_reserved(places[i]);
    }
}

/// Appends a row for `doc`, the current document of `phrase`.
fn take_row<W: Scorer + Positioned>(
    phrase: &mut W,
    doc: DocId,
    rows: &mut Vec<Row>,
    places: &mut Vec<u32>,
    here: &mut Vec<u32>,
)
    requires at { doc ≡ first (W.entries phrase.old) }
    requires on { doc < terminated }
    requires few { length places.old.items < 16384 }
    requires few_places { most_positions (W.entries phrase.old) ≤ 4294967295 }
    requires rows_room { length rows.old.items < vec_capacity rows.old }
    requires places_room { length places.old.items + most_positions (W.entries phrase.old) ≤ vec_capacity places.old }
    requires here_room { most_positions (W.entries phrase.old) ≤ vec_capacity here.old }
    ensures same { W.entries phrase.new ≡ W.entries phrase.old }
    ensures places { places.new.items ≡ places.old.items ++ single (first_positions (W.entries phrase.old)) }
    ensures rows { rows.new.items ≡ rows.old.items ++ record {
      doc = doc;
      score = first_score (W.entries phrase.old);
      begin = length places.old.items;
      num_places = length (single (first_positions (W.entries phrase.old)));
      count = 0;
    } ∷ [] }
    ensures rows_room { vec_capacity rows.new ≡ vec_capacity rows.old }
    ensures places_room { vec_capacity places.new ≡ vec_capacity places.old }
    ensures here_room { vec_capacity here.old ≤ vec_capacity here.new }
{
    let score = phrase.score() as u64;
    phrase.positions(here);
    let begin = places.len() as u32;
    append_all(here, places);
    rows.push_reserved(Row {
        doc,
        begin,
        num_places: here.len() as u32,
        score,
        count: 0,
    });
}

/// Replaces `rows` with the next documents of `phrase`: at most `limit`, and no more once they have `MANY_PLACES`
/// places.
pub(crate) fn take_rows<W: Scorer + Positioned>(
    phrase: &mut W,
    limit: usize,
    rows: &mut Vec<Row>,
    places: &mut Vec<u32>,
    here: &mut Vec<u32>,
)
    requires limit { 0 < limit }
    requires rows_room { limit ≤ vec_capacity rows.old }
    requires places_room { 16384 + most_positions (W.entries phrase.old) ≤ vec_capacity places.old }
    requires here_room { most_positions (W.entries phrase.old) ≤ vec_capacity here.old }
    requires few_places { most_positions (W.entries phrase.old) ≤ 4294967295 }
    ensures taken { map uncounted (W.entries phrase.old)
        ≡ row_entries places.new.items rows.new.items ++ map uncounted (W.entries phrase.new) }
    ensures rest { IsRest (W.entries phrase.new) (W.entries phrase.old) }
    ensures rows { AreRows places.new.items rows.new.items }
    ensures fresh { most_count rows.new.items ≡ 0 }
    ensures few { length rows.new.items ≤ limit }
    ensures some { first (W.entries phrase.old) < terminated → 0 < length rows.new.items }
    ensures rows_room { vec_capacity rows.new ≡ vec_capacity rows.old }
    ensures places_room { vec_capacity places.new ≡ vec_capacity places.old }
    ensures here_room { vec_capacity here.old ≤ vec_capacity here.new }
{
    rows.clear();
    places.clear();
    let mut doc = phrase.doc();
    while doc < TERMINATED && rows.len() < limit && places.len() < MANY_PLACES {
        take_row(phrase, doc, rows, places, here);
        doc = phrase.advance();
    }
}

/// Keeps the rows that some suffix follows.
pub(crate) fn keep_followed(rows: &mut Vec<Row>)
    ensures items { rows.new.items ≡ filter (λ r. nat_lt 0 r.count) rows.old.items }
    ensures room { vec_capacity rows.new ≡ vec_capacity rows.old }
{
    rows.retain(|row| row.count > 0);
}
