//! Names of fields.

ghost use Rattle.std.specs.Prelude.{◌≡◌};
ghost use Rattle.definitions.specs.Schema.{is_valid_field_name};

/// Whether a field may have the name `field_name`: it isn't empty and doesn't begin with `-`.
pub fn is_valid_field_name(field_name: &str) -> bool
    ensures { result ≡ is_valid_field_name field_name.now }
{
    !field_name.is_empty() && !field_name.starts_with('-')
}
