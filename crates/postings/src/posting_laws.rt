//! Laws of the bytes of a term's postings.
#![tactic(auto)]

ghost use Rattle.std.specs.Prelude.{◌%◌, ◌/◌, ◌≡◌, Bool, List, if◌then◌else◌, length, replicate, true, ℕ};
ghost use Rattle.definitions.specs.Blocks.{block_len};
ghost use Rattle.definitions.specs.NumberCodes.{AreBytes};
ghost use Rattle.definitions.specs.Schema.{IndexRecordOption, has_freq, has_positions};
ghost use Rattle.layouts.specs.SkipEntries.{AreSkips, skip_bytes};
ghost use Rattle.layouts.specs.TermPostings.{ArePosted, all_blocks, skip_entries};
ghost use Rattle.segment_postings.specs.Reading.{AreReadable, counts_in, docs_in};

/// States that the blocks of a term can be read, and give its documents and counts back.
pub fn postings_are_read_back()
    ensures readable { (option : IndexRecordOption) (ids docs counts : List ℕ) (reads sums : Bool)
        → ArePosted option docs counts → AreBytes (all_blocks option (length docs / block_len) 0 docs counts)
        → (reads ≡ true → has_freq option ≡ true) → (sums ≡ true → (has_positions option ≡ true) × (reads ≡ true))
        → AreReadable reads sums 0 (skip_entries option ids (length docs / block_len) 0 docs counts)
        (length docs % block_len) (all_blocks option (length docs / block_len) 0 docs counts) }
    ensures docs { (option : IndexRecordOption) (ids docs counts : List ℕ) → ArePosted option docs counts
        → AreBytes (all_blocks option (length docs / block_len) 0 docs counts)
        → docs_in 0 (skip_entries option ids (length docs / block_len) 0 docs counts) (length docs % block_len)
        (all_blocks option (length docs / block_len) 0 docs counts) ≡ docs }
    ensures counts { (option : IndexRecordOption) (ids docs counts : List ℕ) (reads : Bool)
        → ArePosted option docs counts → AreBytes (all_blocks option (length docs / block_len) 0 docs counts)
        → (reads ≡ true → has_freq option ≡ true)
        → counts_in reads 0 (skip_entries option ids (length docs / block_len) 0 docs counts) (length docs % block_len)
        (all_blocks option (length docs / block_len) 0 docs counts)
        ≡ (if reads then counts else replicate (length docs) 1) }
    ensures skips { (option : IndexRecordOption) (ids docs counts : List ℕ) → ArePosted option docs counts
        → AreSkips (has_freq option) (has_positions option) (length docs / block_len)
        (skip_bytes (has_freq option) (has_positions option)
        (skip_entries option ids (length docs / block_len) 0 docs counts))
        (skip_entries option ids (length docs / block_len) 0 docs counts) }
{}
