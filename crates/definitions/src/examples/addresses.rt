//! Addresses as texts.
#![tactic(auto, unfolding(crate::proofs::OnLiterals::definitions_on_literals))]

ghost use Rattle.std.specs.Prelude.{[], ◌*◌, ◌+◌, ◌-◌, ◌^◌, ◌≡◌, codes};
ghost use Rattle.definitions.specs.Addresses.{address_in, address_text, mapped};

/// Four numbers with dots are an IPv4 address among the IPv6 ones.
pub fn quads_are_read()
    ensures quad { address_in (codes "1.2.3.4") ≡ Some (mapped 16909060) }
    ensures greatest { address_in (codes "255.255.255.255") ≡ Some (2 ^ 48 - 1) }
    ensures zeros { address_in (codes "0.0.0.0") ≡ Some (mapped 0) }
    ensures mapped { address_in (codes "::ffff:1.2.3.4") ≡ address_in (codes "1.2.3.4") }
{}

/// Eight groups, or fewer round one `::`.
pub fn groups_are_read()
    ensures nothing { address_in (codes "::") ≡ Some 0 }
    ensures one { address_in (codes "::1") ≡ Some 1 }
    ensures eight { address_in (codes "1:2:3:4:5:6:7:8") ≡ Some 0x0001_0002_0003_0004_0005_0006_0007_0008 }
    ensures first { address_in (codes "1::") ≡ Some (2 ^ 112) }
    ensures both { address_in (codes "fe80::aB:1") ≡ Some (0xfe80 * 2 ^ 112 + 0xab0001) }
    ensures one_zero { address_in (codes "1:2:3:4:5:6::8") ≡ Some 0x0001_0002_0003_0004_0005_0006_0000_0008 }
    ensures quad_last { address_in (codes "1:2:3:4:5:6:7.8.9.10") ≡ Some 0x0001_0002_0003_0004_0005_0006_0708_090a }
{}

/// What no quad is.
pub fn other_quads_are_refused()
    ensures leading_zero { address_in (codes "01.2.3.4") ≡ None }
    ensures too_great { address_in (codes "256.2.3.4") ≡ None }
    ensures three { address_in (codes "1.2.3") ≡ None }
    ensures five { address_in (codes "1.2.3.4.5") ≡ None }
    ensures empty_part { address_in (codes "1..3.4") ≡ None }
    ensures space { address_in (codes " 1.2.3.4") ≡ None }
    ensures empty { address_in [] ≡ None }
{}

/// What no groups are.
pub fn other_groups_are_refused()
    ensures two { address_in (codes "1:2") ≡ None }
    ensures three_colons { address_in (codes "1:::2") ≡ None }
    ensures two_gaps { address_in (codes "1::2::3") ≡ None }
    ensures quad_first { address_in (codes "1.2.3.4::") ≡ None }
    ensures quad_between { address_in (codes "1:2:3:4:5:1.2.3.4:8") ≡ None }
    ensures colon_first { address_in (codes ":1:2:3:4:5:6:7:8") ≡ None }
    ensures colon_last { address_in (codes "1:2:3:4:5:6:7:8:") ≡ None }
    ensures eight_and_a_gap { address_in (codes "1:2:3:4::5:6:7:8") ≡ None }
    ensures nine { address_in (codes "1:2:3:4:5:6:7:8:9") ≡ None }
    ensures five_digits { address_in (codes "::10000") ≡ None }
    ensures no_digit { address_in (codes "::g") ≡ None }
{}

/// A mapped IPv4 address is written as a quad, and others as eight groups.
pub fn addresses_are_written()
    ensures quad { address_text (mapped 16909060) ≡ codes "1.2.3.4" }
    ensures zero { address_text 0 ≡ codes "0:0:0:0:0:0:0:0" }
    ensures groups { address_text 0x0001_0002_0003_0004_0005_0006_0007_00ab ≡ codes "1:2:3:4:5:6:7:ab" }
    ensures not_mapped { address_text (16909060 + 2 ^ 64) ≡ codes "0:0:0:1:0:0:102:304" }
{}
