//! Worked bodies of first records: what is read, and what is refused.
#![tactic(auto, unfolding(definitions::proofs::OnLiterals::definitions_on_literals, crate::specs::RecordBodies::first_in))]

ghost use Rattle.std.specs.Prelude.{[], ◌∷◌, ◌≡◌, None, Some, codes};
ghost use Rattle.definitions.specs.Schema.{date_kind, u64_kind};
ghost use Rattle.definitions.specs.SchemaGrammar.{entry_named};
ghost use Rattle.definitions.specs.Settings.{default_settings};
ghost use Rattle.layouts.specs.RecordBodies.{first_in};

/// First bodies that are accepted: keys in any order, and options that a type lacks are ignored.
pub fn first_bodies_are_read()
    ensures none { first_in (1 ∷ codes "{\"schema\":[],\"settings\":{}}") ≡ Some ([], default_settings) }
    ensures order { first_in (1
        ∷ codes " {\"settings\" : {}, \"schema\" : [{\"options\":{\"gap\":1},\"type\":\"u64\",\"name\":\"n\"}]} ")
        ≡ Some (entry_named (codes "n") u64_kind ∷ [], default_settings) }
    ensures another_byte { first_in (3 ∷ codes "{\"schema\":[],\"settings\":{}}") ≡ None }
    ensures no_settings { first_in (1 ∷ codes "{\"schema\":[]}") ≡ None }
    ensures further { first_in (1 ∷ codes "{\"schema\":[],\"settings\":{},\"x\":1}") ≡ None }
    ensures null { first_in (1 ∷ codes "{\"schema\":[],\"settings\":null}") ≡ None }
    ensures cut { first_in (1 ∷ codes "{\"schema\":[],\"settings\":{}") ≡ None }
    ensures twice { first_in (1
        ∷ codes "{\"schema\":[{\"name\":\"n\",\"type\":\"u64\",\"options\":{}},{\"name\":\"n\",\"type\":\"text\",\"options\":{}}],\"settings\":{}}") ≡ None }
    ensures another_kind { first_in (1
        ∷ codes "{\"schema\":[{\"name\":\"d\",\"type\":\"date\",\"options\":{}}],\"settings\":{}}")
        ≡ Some (entry_named (codes "d") date_kind ∷ [], default_settings) }
    ensures unknown_field { first_in (1
        ∷ codes "{\"schema\":[],\"settings\":{\"weights\":[{\"term\":{\"field\":\"n\",\"value\":1},\"weight\":1}]}}")
        ≡ None }
{}
