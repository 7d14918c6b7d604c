//! The types of fields.

ghost use Rattle.std.specs.Array.Iter.{array_into_iter_items};
ghost use Rattle.std.specs.Prelude.{[], bytes_eq, find, map, option_map, ◌≡◌, ◌∷◌};
ghost use Rattle.definitions.specs.Schema.{all_kinds, kind_name};
ghost use Rattle.definitions.specs.Terms.{type_code};
ghost use Rattle.terms.specs.Kinds.{kind_of};

use std::array::IntoIter;

/// The type of a field's values.
#[derive(Clone, Copy, Debug, PartialEq, Eq)]
pub enum Type {
    /// Texts, cut into tokens.
    Str,
    /// Numbers from 0 below 2^64.
    U64,
    /// Signed numbers of 64 bits.
    I64,
    /// True or false.
    Bool,
    /// Nanoseconds since 1970.
    Date,
    /// Paths of steps.
    Facet,
    /// Any bytes.
    Bytes,
    /// JSON objects.
    Json,
    /// IP addresses of 128 bits, IPv4 mapped into IPv6.
    IpAddr,
}

/// The types, in the order of `Type::iter_values`.
const ALL_TYPES: [Type; 9] = [
    Type::Str,
    Type::U64,
    Type::I64,
    Type::Bool,
    Type::Date,
    Type::Facet,
    Type::Bytes,
    Type::Json,
    Type::IpAddr,
];

impl Type {
    ghost use Rattle.terms.specs.declared.field_type.«Type».{«Type»};

    /// Returns the types, texts first.
    pub fn iter_values() -> IntoIter<Type, 9>
        ensures { map kind_of (array_into_iter_items result) ≡ all_kinds }
    {
        ALL_TYPES.into_iter()
    }

    /// Returns the code of the type, which is after the field's number in its terms.
    pub fn to_code(self) -> u8
        ensures { type_code (kind_of self) ≡ result ∷ [] }
    {
        match self {
            Type::Str => b's',
            Type::U64 => b'u',
            Type::I64 => b'i',
            Type::Bool => b'o',
            Type::Date => b'd',
            Type::Facet => b'h',
            Type::Bytes => b'b',
            Type::Json => b'j',
            Type::IpAddr => b'p',
        }
    }

    /// Returns the type whose code is `code`, if there is one.
    pub fn from_code(code: u8) -> Option<Type>
        ensures value { option_map kind_of result ≡ find (λ kind. bytes_eq (type_code kind) (code ∷ [])) all_kinds }
        ensures inverse { (t : «Type») → type_code (kind_of t) ≡ code ∷ [] → result ≡ Some t }
    {
        match code {
            b's' => Some(Type::Str),
            b'u' => Some(Type::U64),
            b'i' => Some(Type::I64),
            b'o' => Some(Type::Bool),
            b'd' => Some(Type::Date),
            b'h' => Some(Type::Facet),
            b'b' => Some(Type::Bytes),
            b'j' => Some(Type::Json),
            b'p' => Some(Type::IpAddr),
            _ => None,
        }
    }

    /// Returns the type's name in JSON.
    pub fn name(self) -> &'static str
        ensures { result.now ≡ kind_name (kind_of self) }
    {
        match self {
            Type::Str => "text",
            Type::U64 => "u64",
            Type::I64 => "i64",
            Type::Bool => "bool",
            Type::Date => "date",
            Type::Facet => "facet",
            Type::Bytes => "bytes",
            Type::Json => "json_object",
            Type::IpAddr => "ip_addr",
        }
    }
}
