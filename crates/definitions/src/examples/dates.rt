//! Dates as texts.
#![tactic(auto, unfolding(crate::proofs::OnLiterals::definitions_on_literals))]

ghost use Rattle.std.specs.Prelude.{[], ◌+◌, ◌-◌, ◌^◌, ◌≡◌, codes, negsuc, pos};
ghost use Rattle.definitions.specs.Dates.{date_in, date_text, day_text, days_before, fraction_text, time_text};

/// A timestamp is read to the nanosecond.
pub fn timestamps_are_read()
    ensures fraction { date_in (codes "2024-05-01T12:00:00.75Z") ≡ Some (pos 1714564800750000000) }
    ensures offset { date_in (codes "2024-05-01T14:00:00+02:00") ≡ Some (pos 1714564800000000000) }
    ensures no_offset { date_in (codes "2024-05-01T12:00:00") ≡ None }
    ensures no_date { date_in (codes "sea") ≡ None }
{}

/// The fraction is written without its last zeros, and none of whole seconds.
pub fn fractions_are_written()
    ensures some { fraction_text 750000000 ≡ codes ".75" }
    ensures none { fraction_text 0 ≡ [] }
    ensures one { fraction_text 1 ≡ codes ".000000001" }
    ensures zero_within { fraction_text 100200000 ≡ codes ".1002" }
{}

/// The days from the year 0 on.
pub fn days_are_written()
    ensures a_day { day_text (days_before 1970 + 19844) ≡ codes "2024-05-01" }
    ensures leap_day { day_text (days_before 2024 + 59) ≡ codes "2024-02-29" }
    ensures no_leap_day { day_text (days_before 2100 + 59) ≡ codes "2100-03-01" }
    ensures leap_century { day_text (days_before 2000 + 59) ≡ codes "2000-02-29" }
    ensures last_day { day_text (days_before 1970 - 1) ≡ codes "1969-12-31" }
    ensures days_before_1970 { days_before 1970 ≡ 719528 }
{}

/// The seconds of a day.
pub fn times_are_written()
    ensures noon { time_text 43200 ≡ codes "12:00:00" }
    ensures last { time_text 86399 ≡ codes "23:59:59" }
    ensures first { time_text 3661 ≡ codes "01:01:01" }
{}

/// A date is written with its time and fraction.
pub fn a_date_with_a_fraction()
    ensures { date_text (pos 1714564800750000000) ≡ codes "2024-05-01T12:00:00.75Z" }
{}

/// The first instant of 1970.
pub fn the_first_instant_of_1970()
    ensures { date_text (pos 0) ≡ codes "1970-01-01T00:00:00Z" }
{}

/// The last nanosecond before it.
pub fn the_last_nanosecond_before_1970()
    ensures { date_text (negsuc 0) ≡ codes "1969-12-31T23:59:59.999999999Z" }
{}

/// A leap day.
pub fn a_leap_day()
    ensures { date_text (pos 1709210096000000000) ≡ codes "2024-02-29T12:34:56Z" }
{}

/// The least and the greatest instant of 64 bits.
pub fn the_least_and_the_greatest_instant()
    ensures least { date_text (negsuc (2 ^ 63 - 1)) ≡ codes "1677-09-21T00:12:43.145224192Z" }
    ensures greatest { date_text (pos (2 ^ 63 - 1)) ≡ codes "2262-04-11T23:47:16.854775807Z" }
{}
