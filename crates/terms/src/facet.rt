//! Facets.

ghost use Rattle.std.specs.Prelude.{◌&&◌, ◌++◌, ◌==◌, ◌∷◌, ◌≡◌, ◌≢◌, IfErr, IfOk, List, MatchOption, None, OnOk, Some, bytes_eq, false, length, map, nat_lt, option_map, ℕ};
ghost use Rattle.std.specs.List.{list_any, starts_with};
ghost use Rattle.std.specs.String.{string_bytes};
ghost use Rattle.definitions.specs.Facets.{encoded, facet_of_path, facet_of_steps, is_prefix_of, is_root, path_of, root, slash, steps_from};
ghost use Rattle.definitions.specs.Values.{IsFacet};
ghost use Rattle.definitions.specs.declared.fault.Fault.TheVariants as faults;
ghost use Rattle.terms.specs.Steps.{in_path, steps_of};

use crate::json_path::has_zero;
use definitions::Fault;
use std::alloc::{AllocError, Global};
use std::marker::Model;

/// The separator of two steps in `Facet::encoded_str`.
pub const FACET_SEP_BYTE: u8 = 0;

/// `FACET_SEP_BYTE` as a character.
pub const FACET_SEP_CHAR: char = '\u{0}';

/// A facet: a path of one or more steps. The root is one empty step.
#[derive(Drop)]
pub struct Facet {
    encoded: String,
}

impl Model for Facet {
    ghost Value = { List (List ℕ) };

    ghost view = { λ f. steps_of (string_bytes f.encoded) };
}

impl Facet {
    /// Returns the root.
    pub fn root(alloc: Global) -> Facet
        ensures { result ≡ root }
    {
        Facet {
            encoded: String::new(alloc),
        }
    }

    /// Whether the facet is the root.
    pub fn is_root(&self) -> bool
        ensures { result ≡ is_root self.now }
    {
        let encoded = self.encoded.as_str();
        encoded.is_empty()
    }

    /// Parses the facet of a path: a slash begins each step, and a backslash escapes the next character. A path without
    /// a first slash, one that ends in an escaping backslash and one with U+0000 are `FacetParseError`.
    pub fn from_text(alloc: Global, path: &str) -> Result<Facet, Fault>
        ensures ok { IfOk result (λ facet. facet_of_path path.now ≡ Some facet) }
        ensures err { IfErr result (λ fault. fault ≢ faults.OutOfMemory → (fault ≡ faults.FacetParseError)
            × (facet_of_path path.now ≡ None)) }
    {
        let Some(steps) = after_slash(path) else {
            return Err(Fault::FacetParseError);
        };
        if has_zero(steps) {
            return Err(Fault::FacetParseError);
        }
        let encoded = encoded_steps(alloc, steps)?;
        Ok(Facet { encoded })
    }

    /// Makes the facet with the steps of `path`; without steps it is the root. U+0000 in a step is `FacetParseError`.
    pub fn from_path(alloc: Global, path: &[&str]) -> Result<Facet, Fault>
        ensures ok { IfOk result (λ facet. facet_of_steps (map (λ step. step.now) path.now) ≡ Some facet) }
        ensures err { IfErr result (λ fault. fault ≢ faults.OutOfMemory → (fault ≡ faults.FacetParseError)
            × (facet_of_steps (map (λ step. step.now) path.now) ≡ None)) }
    {
        if any_has_separator(path) {
            return Err(Fault::FacetParseError);
        }
        let encoded = joined_steps(alloc, path)?;
        Ok(Facet { encoded })
    }

    /// Makes the facet whose `encoded_str` is `text`: its steps are separated by U+0000.
    pub fn from_separated(alloc: Global, text: &str) -> Result<Facet, AllocError>
        ensures { IfOk result (λ facet. facet ≡ steps_of text.now) }
    {
        let encoded = String::from_str(alloc, text)?;
        Ok(Facet { encoded })
    }

    /// Returns the steps, separated by U+0000.
    pub fn encoded_str(&self) -> &str
        ensures value { result.now ≡ encoded self.now }
        ensures facet { IsFacet self.now }
    {
        self.encoded.as_str()
    }

    /// Lists the steps.
    pub fn to_path(&self, alloc: Global) -> Result<Vec<&str>, AllocError>
        ensures { IfOk result (λ steps. map (λ step. step.now) steps.items ≡ self.now) }
    {
        self.encoded.split(FACET_SEP_CHAR).collect(alloc)
    }

    /// Returns the path of the facet, which `from_text` parses to it.
    pub fn to_path_string(&self, alloc: Global) -> Result<String, AllocError>
        ensures value { IfOk result (λ path. string_bytes path ≡ path_of self.now) }
        ensures read_back { facet_of_path (path_of self.now) ≡ Some self.now }
    {
        path_text(alloc, self.encoded.as_str())
    }

    /// Whether `other` is below this facet: it begins with its steps and has more. Every facet but the root is below
    /// the root.
    pub fn is_prefix_of(&self, other: &Facet) -> bool
        ensures { result ≡ is_prefix_of self.now other.now }
    {
        if self.is_root() {
            return !other.is_root();
        }
        is_below(other.encoded.as_bytes(), self.encoded.as_bytes())
    }
}

/// Returns what follows the first slash of `path`.
fn after_slash(path: &str) -> Option<&str>
    ensures { MatchOption result ((rest : List ℕ) → path.now ≢ slash ∷ rest) (λ steps. path.now ≡ slash ∷ steps.now) }
{
    path.strip_prefix('/')
}

/// Whether any step contains U+0000.
fn any_has_separator(path: &[&str]) -> bool
    ensures { result ≡ list_any (λ step. list_any (◌==◌ 0) step.now) path.now }
{
    path.iter().any(|step| has_zero(step))
}

/// Joins the steps, separated by U+0000.
fn joined_steps(alloc: Global, path: &[&str]) -> Result<String, AllocError>
    ensures { IfOk result (λ text. string_bytes text ≡ encoded (map (λ step. step.now) path.now)) }
{
    path.join(alloc, "\0")
}

/// Whether `text` begins with the steps of `start` and has more.
fn is_below(text: &[u8], start: &[u8]) -> bool
    ensures { result ≡ (nat_lt (length (steps_of start.now)) (length (steps_of text.now)) && starts_with bytes_eq
        (steps_of text.now) (steps_of start.now)) }
{
    match text.strip_prefix(start) {
        Some(rest) => !rest.is_empty() && rest[0] == FACET_SEP_BYTE,
        None => false,
    }
}

/// Parses the path after its first slash; returns its steps, separated by U+0000.
fn encoded_steps(alloc: Global, path: &str) -> Result<String, Fault>
    ensures ok { IfOk result (λ text. option_map encoded (steps_from false path.now) ≡ Some (string_bytes text)) }
    ensures err { IfErr result (λ fault. fault ≢ faults.OutOfMemory → (fault ≡ faults.FacetParseError)
        × (steps_from false path.now ≡ None)) }
{
    let bytes = step_bytes(alloc, path)?;
    Ok(String::from_utf8(bytes).unwrap())
}

/// Returns the bytes of `encoded_steps`.
fn step_bytes(alloc: Global, path: &str) -> Result<Vec<u8>, Fault>
    ensures ok { IfOk result (λ bytes. option_map encoded (steps_from false path.now) ≡ Some bytes.items) }
    ensures err { IfErr result (λ fault. fault ≢ faults.OutOfMemory → (fault ≡ faults.FacetParseError)
        × (steps_from false path.now ≡ None)) }
{
    let mut bytes = Vec::with_capacity(alloc, path.len())?;
    let mut escaped = false;
    for byte in path.as_bytes() {
        if !escaped && *byte == b'\\' {
            escaped = true;
        } else {
            bytes.push(step_byte(*byte, escaped))?;
            escaped = false;
        }
    }
    if escaped {
        return Err(Fault::FacetParseError);
    }
    Ok(bytes)
}

/// Converts a byte of a path that isn't an escaping backslash to a byte of the encoded steps.
fn step_byte(byte: u8, escaped: bool) -> u8
    requires { escaped ≡ false → byte ≢ 92 }
    ensures { (rest : List ℕ) → option_map encoded (steps_from escaped (byte ∷ rest))
        ≡ option_map (λ steps. result ∷ steps) (option_map encoded (steps_from false rest)) }
{
    if !escaped && byte == b'/' {
        return FACET_SEP_BYTE;
    }
    byte
}

/// Returns the path of the steps in `text`, which are separated by U+0000.
fn path_text(alloc: Global, text: &str) -> Result<String, AllocError>
    ensures { IfOk result (λ path. string_bytes path ≡ path_of (steps_of text.now)) }
{
    let bytes = path_bytes(alloc, text)?;
    Ok(String::from_utf8(bytes).unwrap())
}

/// Returns the bytes of `path_text`.
fn path_bytes(alloc: Global, text: &str) -> Result<Vec<u8>, AllocError>
    ensures { IfOk result (λ bytes. bytes.items ≡ path_of (steps_of text.now)) }
{
    let mut bytes = Vec::with_capacity(alloc, 1 + text.len())?;
    bytes.push(b'/')?;
    for byte in text.as_bytes() {
        push_in_path(&mut bytes, *byte)?;
    }
    Ok(bytes)
}

/// Appends a byte of `Facet::encoded_str` to a path.
fn push_in_path(bytes: &mut Vec<u8>, byte: u8) -> Result<(), AllocError>
    ensures { OnOk result (bytes.new.items ≡ bytes.old.items ++ in_path byte) }
{
    if byte == FACET_SEP_BYTE {
        return Ok(bytes.push(b'/')?);
    }
    if byte == b'/' || byte == b'\\' {
        bytes.push(b'\\')?;
    }
    Ok(bytes.push(byte)?)
}
