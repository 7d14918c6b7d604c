//! An analyzer for which a letter is the same in upper and lower case, past ASCII too.

use caseless::default_case_fold_str;
use index::{Analyzer, RawAndDefault, Token};
use std::alloc::{AllocError, Global};

/// Cuts texts as `RawAndDefault` does, after their case is folded as Unicode has it: `Straße`, `STRASSE` and `strasse`
/// are one word.
#[derive(Clone, Copy, Debug)]
pub struct CaseFolding;

impl Analyzer for CaseFolding {
    ghost use Rattle.definitions.specs.Analyzers.{is_raw_or_default};
    ghost use Rattle.caseless_finder.specs.Folding.{case_folding};
    ghost use Rattle.caseless_finder.specs.FoldingLaws.{case_folding_analyzes};

    ghost knows_name = { λ _. is_raw_or_default };

    ghost analyze = { λ _. case_folding };

    ghost is_analyzer = { λ _. case_folding_analyzes };

    fn knows(&self, name: &str) -> bool {
        RawAndDefault.knows(name)
    }

    fn tokens(&self, alloc: Global, name: &str, text: &str) -> Result<Vec<Token>, AllocError> {
        let folded = default_case_fold_str(alloc, text)?;
        RawAndDefault.tokens(alloc, name, &folded)
    }
}
