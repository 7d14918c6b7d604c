//! Documents: values with the ids of their fields, in one list of bytes.

ghost use Rattle.std.specs.Prelude.{[], ◌%◌, ◌++◌, ◌/◌, ◌<◌, ◌^◌, ◌∷◌, ◌≡◌, ◌≢◌, false, length, nat_eq, option_map, true, ◌==◌, ◌⊎◌, ℕ, IfErr, IfOk, None, OnErr, OnOk, Some};
ghost use Rattle.std.specs.Int.{from_bool};
ghost use Rattle.definitions.specs.GivenDepths.{is_too_deep_value};
ghost use Rattle.definitions.specs.NumberCodes.{sized_bytes, u32_bytes, u64_bytes};
ghost use Rattle.definitions.specs.Values as values;
ghost use Rattle.definitions.specs.Values.{Value as DocValue, values_of};
ghost use Rattle.document_values.specs.Docs.{IsGoodPair, IsHeap, pairs_at};
ghost use Rattle.document_values.specs.Held.{IsHeldValue, held_bytes, held_pair};
ghost use Rattle.document_values.specs.Owned.{owned_members, owned_value};
ghost use Rattle.layouts.specs.DocumentReading.{deepest, read_document, to_members};
ghost use Rattle.definitions.specs.declared.fault.Fault.TheVariants as faults;
ghost use Rattle.std.specs.List.{AllByRecursion, find};

use common::{PreTokenizedString, take_vint};
use definitions::Fault;
use document_values::{
    CompactDocValue, FieldValueIterRef, OwnedValue, ValuesOfField, address_pair, append,
    append_sized, is_too_deep, is_too_deep_object, object_pair, owned_pair, skip_pairs,
    tokens_pair, value_head,
};
use std::alloc::{AllocError, Global};
use std::marker::Model;
use terms::{DateTime, Facet, Field};

/// A document, seen as the list of its pairs: the id of a field and one of its values.
///
/// The pairs are one after another in one list of bytes, as in the binary form; tokens are kept too.
#[derive(Drop)]
pub struct CompactDoc {
    heap: Vec<u8>,
    count: usize,
}

impl Model for CompactDoc {
    ghost use Rattle.std.specs.Coded.{codes, coded_list, coded_ℕ, coded×};
    ghost use Rattle.definitions.specs.Values.{Document};
    ghost use Rattle.document_values.specs.Docs.{IsHeap, pairs_at};
    ghost use Rattle.document_values.specs.ValueCodesLaws.{value_code};

    ghost Value = { Document };

    ghost coded = { coded_list (coded× coded_ℕ (value_code (Prim.hlevel codes))) };

    ghost view = { λ d. pairs_at d.count d.heap.items };

    ghost invariant = { λ d. IsHeap d.heap.items d.count };
}

impl CompactDoc {
    ghost use Rattle.document_values.specs.Shown.{value_of};

    /// Returns a document without pairs.
    pub fn new(alloc: Global) -> CompactDoc
        ensures { result ≡ [] }
    {
        CompactDoc {
            heap: Vec::new(alloc),
            count: 0,
        }
    }

    /// Returns how many pairs there are.
    pub fn len(&self) -> usize
        ensures count { result ≡ length self.now }
        ensures pairs { AllByRecursion (IsGoodPair true deepest) self.now }
    {
        let CompactDoc { count, .. } = self;
        *count
    }

    /// Whether there are no pairs.
    pub fn is_empty(&self) -> bool
        ensures { result ≡ nat_eq (length self.now) 0 }
    {
        self.count == 0
    }

    /// Returns the bytes, and how many pairs they are.
    pub(crate) fn held(&self) -> (&[u8], usize)
        ensures heap { IsHeap result.0.now result.1 }
        ensures pairs { pairs_at result.1 result.0.now ≡ self.now }
    {
        (self.heap.as_slice(), self.count)
    }

    /// Returns the pairs, in order of addition.
    pub fn field_values(&self) -> FieldValueIterRef<'_>
        ensures { result ≡ self.now }
    {
        FieldValueIterRef::new(self.count, self.heap.as_slice())
    }

    /// Returns the first value of `field`.
    pub fn get_first(&self, field: Field) -> Option<CompactDocValue<'_>>
        ensures { option_map value_of result ≡ option_map (λ p. p.1) (find (λ p. p.0 == field) self.now) }
    {
        for (number, value) in self.field_values() {
            if number == field {
                return Some(value);
            }
        }
        None
    }

    /// Returns the values of `field`, in order of addition.
    pub fn get_all(&self, field: Field) -> ValuesOfField<'_>
        ensures { result ≡ values_of field self.now }
    {
        ValuesOfField::new(field, self.field_values())
    }

    /// Decodes a document from its binary form. Bytes that are none are `Damaged`, and so is a document with a value
    /// that nests more than 128 deep.
    pub fn deserialize(alloc: Global, bytes: &[u8]) -> Result<CompactDoc, Fault>
        ensures ok { IfOk result (λ doc. read_document bytes.now ≡ Some doc) }
        ensures err { IfErr result (λ fault. (fault ≡ faults.OutOfMemory)
            ⊎ ((fault ≡ faults.Damaged None) × (read_document bytes.now ≡ None))) }
    {
        let (count, pairs) = take_vint(bytes)?;
        if !skip_pairs(count, pairs)?.is_empty() {
            return Err(Fault::Damaged(None));
        }
        let mut heap = Vec::with_capacity(alloc, pairs.len())?;
        heap.extend_from_slice(pairs)?;
        Ok(CompactDoc {
            heap,
            count: count as usize,
        })
    }

    /// Adds a text.
    pub fn add_text(&mut self, field: Field, text: &str) -> Result<(), AllocError>
        ensures ok { OnOk result (self.new ≡ self.old ++ ((field, values.str text.now) ∷ [])) }
        ensures err { OnErr result (self.new ≡ self.old) }
    {
        self.add_sized(value_head(field, 0), text.as_bytes())
    }

    /// Adds a text with its tokens.
    pub fn add_pre_tokenized_text(
        &mut self,
        field: Field,
        text: &PreTokenizedString,
    ) -> Result<(), AllocError>
        ensures ok { OnOk result (self.new ≡ self.old ++ ((field, values.pre_tok_str text.now.0 text.now.1) ∷ [])) }
        ensures err { OnErr result (self.new ≡ self.old) }
    {
        let pair = tokens_pair(*self.heap.allocator(), field, text)?;
        self.add(pair)
    }

    /// Adds a facet.
    pub fn add_facet(&mut self, field: Field, facet: &Facet) -> Result<(), AllocError>
        ensures ok { OnOk result (self.new ≡ self.old ++ ((field, values.facet facet.now) ∷ [])) }
        ensures err { OnErr result (self.new ≡ self.old) }
    {
        self.add_sized(value_head(field, 3), facet.encoded_str().as_bytes())
    }

    /// Adds a byte string.
    pub fn add_bytes(&mut self, field: Field, bytes: &[u8]) -> Result<(), AllocError>
        ensures ok { OnOk result (self.new ≡ self.old ++ ((field, values.bytes bytes.now) ∷ [])) }
        ensures err { OnErr result (self.new ≡ self.old) }
    {
        self.add_sized(value_head(field, 4), bytes)
    }

    /// Adds an object of `members`, in order. One that nests more than 256 deep is `NotIndexable`.
    pub fn add_object(
        &mut self,
        field: Field,
        members: &[(String, OwnedValue)],
    ) -> Result<(), Fault>
        ensures ok { OnOk result (self.new
            ≡ self.old ++ ((field, values.object (to_members (owned_members members.now))) ∷ [])) }
        ensures shallow { OnOk result (is_too_deep_value (values.object (to_members (owned_members members.now)))
            ≡ false) }
        ensures err { IfErr result (λ fault. fault ≢ faults.OutOfMemory → (fault ≡ faults.NotIndexable)
            × (is_too_deep_value (values.object (to_members (owned_members members.now))) ≡ true)) }
        ensures same { OnErr result (self.new ≡ self.old) }
    {
        if is_too_deep_object(members) {
            return Err(Fault::NotIndexable);
        }
        let pair = object_pair(*self.heap.allocator(), field, members)?;
        Ok(self.add(pair)?)
    }

    /// Adds a value of any kind. One that nests more than 256 deep is `NotIndexable`.
    pub fn add_field_value(&mut self, field: Field, value: &OwnedValue) -> Result<(), Fault>
        ensures ok { OnOk result (self.new ≡ self.old ++ ((field, owned_value value.now) ∷ [])) }
        ensures shallow { OnOk result (is_too_deep_value (owned_value value.now) ≡ false) }
        ensures err { IfErr result (λ fault. fault ≢ faults.OutOfMemory
            → (fault ≡ faults.NotIndexable) × (is_too_deep_value (owned_value value.now) ≡ true)) }
        ensures same { OnErr result (self.new ≡ self.old) }
    {
        if is_too_deep(value) {
            return Err(Fault::NotIndexable);
        }
        let pair = owned_pair(*self.heap.allocator(), field, value)?;
        Ok(self.add(pair)?)
    }

    /// Adds a number from 0 below 2^64.
    pub fn add_u64(&mut self, field: Field, n: u64) -> Result<(), AllocError>
        ensures ok { OnOk result (self.new ≡ self.old ++ ((field, values.u64 n) ∷ [])) }
        ensures err { OnErr result (self.new ≡ self.old) }
    {
        self.add_parts(&value_head(field, 1), &u64::to_le_bytes(n))
    }

    /// Adds a number from -2^63 below 2^63.
    pub fn add_i64(&mut self, field: Field, n: i64) -> Result<(), AllocError>
        ensures ok { OnOk result (self.new ≡ self.old ++ ((field, values.i64 n) ∷ [])) }
        ensures err { OnErr result (self.new ≡ self.old) }
    {
        self.add_parts(&value_head(field, 2), &u64::to_le_bytes(n.cast_unsigned()))
    }

    /// Adds a point of time.
    pub fn add_date(&mut self, field: Field, time: DateTime) -> Result<(), AllocError>
        ensures ok { OnOk result (self.new ≡ self.old ++ ((field, values.date time) ∷ [])) }
        ensures err { OnErr result (self.new ≡ self.old) }
    {
        let nanos = time.into_timestamp_nanos();
        self.add_parts(
            &value_head(field, 5),
            &u64::to_le_bytes(nanos.cast_unsigned()),
        )
    }

    /// Adds true or false.
    pub fn add_bool(&mut self, field: Field, b: bool) -> Result<(), AllocError>
        ensures ok { OnOk result (self.new ≡ self.old ++ ((field, values.bool b) ∷ [])) }
        ensures err { OnErr result (self.new ≡ self.old) }
    {
        self.add_parts(&value_head(field, 9), &[b as u8])
    }

    /// Adds an IP address by its 128 bits; one of IPv4 is mapped into IPv6.
    pub fn add_ip_addr(&mut self, field: Field, address: u128) -> Result<(), AllocError>
        ensures ok { OnOk result (self.new ≡ self.old ++ ((field, values.ip_addr address) ∷ [])) }
        ensures err { OnErr result (self.new ≡ self.old) }
    {
        let pair = address_pair(*self.heap.allocator(), field, address)?;
        self.add(pair)
    }
}

impl CompactDoc {
    /// Adds the encoded `pair`.
    pub(crate) fn add(&mut self, pair: Vec<u8>) -> Result<(), AllocError>
        requires { (p : ℕ × DocValue) × IsGoodPair true deepest p × (pair.items ≡ held_pair p) }
        ensures ok { OnOk result ((p : ℕ × DocValue) → IsGoodPair true deepest p → pair.items ≡ held_pair p
            → self.new ≡ self.old ++ (p ∷ [])) }
        ensures err { OnErr result (self.new ≡ self.old) }
    {
        self.add_parts(pair.as_slice(), &[])
    }

    /// Adds the pair that is encoded as `first` and then `second`.
    fn add_parts(&mut self, first: &[u8], second: &[u8]) -> Result<(), AllocError>
        requires { (p : ℕ × DocValue) × IsGoodPair true deepest p × (first.now ++ second.now ≡ held_pair p) }
        ensures ok { OnOk result ((p : ℕ × DocValue) → IsGoodPair true deepest p
            → first.now ++ second.now ≡ held_pair p → self.new ≡ self.old ++ (p ∷ [])) }
        ensures err { OnErr result (self.new ≡ self.old) }
    {
        append(&mut self.heap, first, second)?;
        self.count += 1;
        Ok(())
    }

    /// Adds the pair that is encoded as `first`, the length of `second`, and `second`.
    fn add_sized(&mut self, first: [u8; 5], second: &[u8]) -> Result<(), AllocError>
        requires { (p : ℕ × DocValue) × (length second.now < 2 ^ 64 → IsGoodPair true deepest p)
            × (first ++ sized_bytes second.now ≡ held_pair p) }
        ensures ok { OnOk result ((p : ℕ × DocValue) → (length second.now < 2 ^ 64 → IsGoodPair true deepest p)
            → first ++ sized_bytes second.now ≡ held_pair p → self.new ≡ self.old ++ (p ∷ [])) }
        ensures err { OnErr result (self.new ≡ self.old) }
    {
        append_sized(&mut self.heap, first, second)?;
        self.count += 1;
        Ok(())
    }
}

impl PartialEq for CompactDoc {
    ghost use Rattle.std.specs.Cmp.{on_per, partial_equiv_from_equiv};
    ghost use Rattle.std.specs.Cmp.Lexicographic.{nat_list_eq_equiv};
    ghost use Rattle.document_values.specs.Docs.{held_document, same_document};

    ghost eq = { same_document };

    ghost laws = { on_per held_document (partial_equiv_from_equiv nat_list_eq_equiv) };

    fn eq(&self, other: &Self) -> bool {
        self.count == other.count && self.heap.as_slice() == other.heap.as_slice()
    }
}

impl Eq for CompactDoc {
    ghost use Rattle.std.specs.Cmp.{on_equiv};
    ghost use Rattle.std.specs.Cmp.Lexicographic.{nat_list_eq_equiv};
    ghost use Rattle.document_values.specs.Docs.{held_document};

    ghost laws = { on_equiv held_document nat_list_eq_equiv };
}
