//! The footer of a store: its version, and where its skip index starts.

ghost use Rattle.std.specs.Prelude.{◌++◌, ◌<◌, ◌≡◌, ◌^◌, IfErr, IfOk, List, None, OnOk, ℕ};
ghost use Rattle.definitions.specs.declared.fault.Fault.TheVariants as faults;
ghost use Rattle.layouts.specs.Stores.{footer_bytes};
ghost use Rattle.store.specs.Footers.{take_footer};

use common::{put_u32, put_u64, take_u32, take_u64};
use definitions::Fault;
use std::alloc::AllocError;
use std::fmt;

/// The version of a store's layout.
#[derive(Clone, Copy, Debug, PartialEq, Eq)]
pub enum DocStoreVersion {
    /// The first version, which isn't read.
    V1,
    /// The version that is written and read.
    V2,
}

impl fmt::Display for DocStoreVersion {
    fn fmt<W: fmt::Write>(&self, f: &mut fmt::Formatter<W>) -> fmt::Result {
        match self {
            DocStoreVersion::V1 => f.write_str("V1"),
            DocStoreVersion::V2 => f.write_str("V2"),
        }
    }
}

/// The end of a store, 28 bytes.
#[derive(Clone, Copy, Debug, PartialEq, Eq)]
pub struct DocStoreFooter {
    /// The offset of the skip index.
    pub offset: u64,
}

impl DocStoreFooter {
    /// How many bytes a footer has.
    pub const LEN: usize = 28;

    /// Returns the footer of a store whose skip index starts at `offset`.
    pub fn new(offset: u64) -> DocStoreFooter
        ensures { result.offset ≡ offset }
    {
        DocStoreFooter { offset }
    }

    /// Appends the footer to `out`.
    pub fn serialize(&self, out: &mut Vec<u8>) -> Result<(), AllocError>
        ensures { OnOk result (out.new.items ≡ out.old.items ++ footer_bytes self.now.offset) }
    {
        put_u32(out, 2)?;
        put_u64(out, self.offset)?;
        put_u64(out, 0)?;
        put_u64(out, 0)?;
        Ok(())
    }

    /// Decodes a footer of the version that is read; returns it, and the bytes after it.
    pub fn deserialize(bytes: &[u8]) -> Result<(DocStoreFooter, &[u8]), Fault>
        ensures ok { IfOk result (λ p. bytes.now ≡ footer_bytes p.0.offset ++ p.1.now) }
        ensures err { IfErr result (λ fault. (fault ≡ faults.Damaged None)
            × ((at : ℕ) (rest : List ℕ) → at < 2 ^ 64 → bytes.now ≡ footer_bytes at ++ rest → ⊥)) }
    {
        take_footer(bytes)
    }

    /// Decodes the footer at the end of `file`; returns it, and the bytes before it.
    pub fn extract_footer(file: &[u8]) -> Result<(DocStoreFooter, &[u8]), Fault>
        ensures ok { IfOk result (λ p. file.now ≡ p.1.now ++ footer_bytes p.0.offset) }
        ensures err { IfErr result (λ fault. (fault ≡ faults.Damaged None)
            × ((at : ℕ) (body : List ℕ) → at < 2 ^ 64 → file.now ≡ body ++ footer_bytes at → ⊥)) }
    {
        if file.len() < DocStoreFooter::LEN {
            return Err(Fault::Damaged(None));
        }
        let (body, end) = file.split_at(file.len() - DocStoreFooter::LEN);
        match DocStoreFooter::deserialize(end) {
            Ok((footer, _)) => Ok((footer, body)),
            Err(fault) => Err(fault),
        }
    }
}

/// Decodes a footer; returns it, and the bytes after it.
fn take_footer(bytes: &[u8]) -> Result<(DocStoreFooter, &[u8]), Fault>
    ensures ok { IfOk result (λ p. take_footer bytes.now ≡ Some (p.0.offset, p.1.now)) }
    ensures err { IfErr result (λ fault. (fault ≡ faults.Damaged None) × (take_footer bytes.now ≡ None)) }
{
    let (version, rest) = take_u32(bytes)?;
    let (offset, rest) = take_u64(rest)?;
    let (low, rest) = take_u64(rest)?;
    let (high, rest) = take_u64(rest)?;
    if version != 2 || low != 0 || high != 0 {
        return Err(Fault::Damaged(None));
    }
    Ok((DocStoreFooter { offset }, rest))
}
