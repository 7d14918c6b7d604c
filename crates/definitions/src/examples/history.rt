//! What adds, deletions, commits and merges leave.

ghost use Rattle.std.specs.Prelude.{[], ◌∷◌, ◌≡◌, false, map, true};
ghost use Rattle.definitions.specs.Addresses.{groups};
ghost use Rattle.definitions.specs.Alive.{live, live_groups};
ghost use Rattle.definitions.specs.Analyzers.{raw_and_default};
ghost use Rattle.definitions.specs.Calls.{add_document, commit_pending, delete_term, merge_range};
ghost use Rattle.definitions.specs.Examples.{add_and_commit, after_calls, best, books, count_in, hit, of_three_books, of_year, old_sea, sea_and_a_point, sea_or_wind, sea_wind, three_books, title_term, wind, year_term};
ghost use Rattle.definitions.specs.State.{after_commit, after_delete, after_merge, committed, is_bad_range, nothing_yet, num_docs, num_segments};

/// Before a commit nothing is seen, and then the documents stand in groups.
pub fn a_commit_makes_groups()
    ensures before { committed (after_calls 1 (map add_document three_books) nothing_yet) ≡ [] }
    ensures one_each { (of_three_books 1).groups ≡ (old_sea ∷ []) ∷ (sea_wind ∷ []) ∷ (wind ∷ []) ∷ [] }
    ensures two_each { (of_three_books 2).groups ≡ (old_sea ∷ sea_wind ∷ []) ∷ (wind ∷ []) ∷ [] }
    ensures all_in_one { (of_three_books 3).groups ≡ three_books ∷ [] }
    ensures nothing_waits { (of_three_books 2).pending ≡ [] }
    ensures num_segments { num_segments (of_three_books 2) ≡ 2 }
    ensures num_docs { num_docs (of_three_books 2) ≡ 3 }
    ensures no_call { (after_calls 2 (commit_pending ∷ []) nothing_yet).groups ≡ [] }
{}

/// Groups change no hit, and nor does a merge.
pub fn a_merge_changes_no_hit()
    ensures before { best 2 (committed (of_three_books 1)) sea_or_wind ≡ hit sea_wind 70 ∷ hit old_sea 30 ∷ [] }
    ensures after { best 2 (committed (after_merge 0 3 (of_three_books 1))) sea_or_wind ≡ hit sea_wind 70
        ∷ hit old_sea 30 ∷ [] }
    ensures points_before { best 10 (committed (of_three_books 1)) sea_and_a_point ≡ hit sea_wind 71 ∷ hit old_sea 31
        ∷ [] }
    ensures points_after { best 10 (committed (after_merge 0 3 (of_three_books 1))) sea_and_a_point ≡ hit sea_wind 71
        ∷ hit old_sea 31 ∷ [] }
    ensures groups { (after_merge 0 3 (of_three_books 1)).groups ≡ three_books ∷ [] }
    ensures last_two { (after_merge 1 3 (of_three_books 1)).groups ≡ (old_sea ∷ []) ∷ (sea_wind ∷ wind ∷ []) ∷ [] }
    ensures first_two { (after_merge 0 2 (of_three_books 1)).groups ≡ (old_sea ∷ sea_wind ∷ []) ∷ (wind ∷ []) ∷ [] }
{}

/// A range names one group or more, and none past the last.
pub fn ranges_name_groups()
    ensures past_the_last { is_bad_range 1 4 (of_three_books 1) ≡ true }
    ensures none { is_bad_range 2 2 (of_three_books 1) ≡ true }
    ensures turned { is_bad_range 2 1 (of_three_books 1) ≡ true }
    ensures all { is_bad_range 0 3 (of_three_books 1) ≡ false }
    ensures one { is_bad_range 2 3 (of_three_books 1) ≡ false }
{}

/// A deletion shows at the next commit, and covers what was added before it.
pub fn a_deletion_covers_what_stands_before_it()
    ensures waiting { best 10 (committed (after_delete (year_term 1952) (of_three_books 2))) sea_or_wind
        ≡ hit sea_wind 70 ∷ hit old_sea 30 ∷ hit wind 30 ∷ [] }
    ensures hits { best 10 (committed (after_commit books raw_and_default 2
        (after_delete (year_term 1952) (of_three_books 2)))) sea_or_wind ≡ hit sea_wind 70 ∷ [] }
    ensures count { count_in (committed (after_commit books raw_and_default 2
        (after_delete (year_term 1952) (of_three_books 2)))) sea_or_wind ≡ 1 }
    ensures added_again { best 10 (committed (after_calls 2 (delete_term (year_term 1952) ∷ commit_pending
        ∷ add_and_commit (old_sea ∷ [])) (of_three_books 2))) (of_year 1952) ≡ hit old_sea 30 ∷ [] }
    ensures added_again_count { count_in (committed (after_calls 2 (delete_term (year_term 1952) ∷ commit_pending
        ∷ add_and_commit (old_sea ∷ [])) (of_three_books 2))) (of_year 1952) ≡ 1 }
{}

/// Also among the calls that wait for one commit it covers only what stands before it.
pub fn a_deletion_leaves_what_comes_later()
    ensures shown { committed (after_calls 2 (add_document old_sea ∷ delete_term (year_term 1952)
        ∷ add_and_commit (wind ∷ [])) nothing_yet) ≡ wind ∷ [] }
    ensures two_deletions { committed (after_calls 2 (add_document sea_wind ∷ delete_term (title_term "sea")
        ∷ add_document old_sea ∷ delete_term (year_term 1987) ∷ add_and_commit (sea_wind ∷ [])) nothing_yet) ≡ old_sea
        ∷ sea_wind ∷ [] }
    ensures earlier_commit { committed (after_calls 2 (delete_term (title_term "wind")
        ∷ add_and_commit (wind ∷ [])) (of_three_books 2)) ≡ old_sea ∷ wind ∷ [] }
{}

/// A document that was added with the deleted ones still takes its place in a group.
pub fn groups_count_what_was_added()
    ensures { (after_calls 2 (add_document old_sea ∷ delete_term (year_term 1952)
        ∷ add_and_commit (sea_wind ∷ wind ∷ [])) nothing_yet).groups ≡ (sea_wind ∷ []) ∷ (wind ∷ []) ∷ [] }
{}

/// A group that is left empty stands until a merge, which then leaves none.
pub fn a_merge_drops_what_is_empty()
    ensures deleted { (after_calls 2 (delete_term (year_term 1987) ∷ commit_pending ∷ []) (of_three_books 2)).groups
        ≡ (old_sea ∷ []) ∷ (wind ∷ []) ∷ [] }
    ensures merged { (after_calls 2 (delete_term (year_term 1987) ∷ commit_pending ∷ merge_range 0 2
        ∷ []) (of_three_books 2)).groups ≡ (old_sea ∷ wind ∷ []) ∷ [] }
    ensures hits { best 10 (committed (after_calls 2 (delete_term (year_term 1987) ∷ commit_pending ∷ merge_range 0 2
        ∷ []) (of_three_books 2))) sea_or_wind ≡ hit old_sea 30 ∷ hit wind 30 ∷ [] }
    ensures empty { (after_calls 2 (delete_term (year_term 1987) ∷ commit_pending ∷ merge_range 0 2
        ∷ delete_term (year_term 1952) ∷ commit_pending ∷ []) (of_three_books 2)).groups ≡ [] ∷ [] }
    ensures nothing { (after_calls 2 (delete_term (year_term 1987) ∷ commit_pending ∷ merge_range 0 2
        ∷ delete_term (year_term 1952) ∷ commit_pending ∷ merge_range 0 1 ∷ []) (of_three_books 2)).groups ≡ [] }
    ensures no_range { is_bad_range 0 1 (record { groups = []; pending = [] }) ≡ true }
{}

/// A merge leaves the calls that wait, and they still cover what is merged.
pub fn a_merge_leaves_what_waits()
    ensures { committed (after_calls 2 (delete_term (year_term 1952) ∷ merge_range 0 2 ∷ commit_pending
        ∷ []) (of_three_books 2)) ≡ sea_wind ∷ [] }
{}

/// Also a group of new documents may be empty from the start.
pub fn groups_may_begin_empty()
    ensures { (after_calls 1 (add_document old_sea ∷ delete_term (year_term 1952)
        ∷ add_and_commit (wind ∷ [])) nothing_yet).groups ≡ [] ∷ (wind ∷ []) ∷ [] }
{}

/// Of segments the living documents are seen, in their order.
pub fn segments_show_living_documents()
    ensures groups { live_groups (((old_sea, true) ∷ (sea_wind, false) ∷ []) ∷ ((wind, false) ∷ []) ∷ [])
        ≡ (old_sea ∷ []) ∷ [] ∷ [] }
    ensures documents { live (((old_sea, true) ∷ (sea_wind, false) ∷ []) ∷ ((wind, true) ∷ []) ∷ []) ≡ old_sea ∷ wind
        ∷ [] }
{}
