//! Facets read from texts.

ghost use Rattle.std.specs.Prelude.{◌≡◌, ◌≢◌, IfErr, IfOk, None, Some};
ghost use Rattle.definitions.specs.Facets.{facet_of_path};
ghost use Rattle.definitions.specs.declared.fault.Fault.TheVariants as faults;

use definitions::Fault;
use std::alloc::Global;
use terms::Facet;

/// Reads the facet of a path; any other text is `ParseError`.
pub fn read_facet(alloc: Global, text: &str) -> Result<Facet, Fault>
    ensures ok { IfOk result (λ facet. facet_of_path text.now ≡ Some facet) }
    ensures err { IfErr result (λ fault. fault ≢ faults.OutOfMemory → (fault ≡ faults.ParseError)
        × (facet_of_path text.now ≡ None)) }
{
    match Facet::from_text(alloc, text) {
        Ok(facet) => Ok(facet),
        Err(Fault::OutOfMemory) => Err(Fault::OutOfMemory),
        Err(_) => Err(Fault::ParseError),
    }
}
