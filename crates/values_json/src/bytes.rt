//! Byte strings as base64.

ghost use Rattle.std.specs.Prelude.{◌≡◌, ◌≢◌, IfErr, IfOk, None, Some, string_bytes};
ghost use Rattle.base64.specs.Engines.{standard};
ghost use Rattle.base64.specs.GeneralPurpose.{decoded_of, encode_of};
ghost use Rattle.definitions.specs.declared.fault.Fault.TheVariants as faults;

use base64::DecodeAllocError;
use base64::engine::general_purpose::STANDARD;
use definitions::Fault;
use std::alloc::{AllocError, Global};

/// Decodes a text in standard base64; any other text is `InvalidBase64`.
pub fn read_bytes(alloc: Global, text: &str) -> Result<Vec<u8>, Fault>
    ensures ok { IfOk result (λ bytes. decoded_of standard text.now ≡ Some bytes.items) }
    ensures err { IfErr result (λ fault. fault ≢ faults.OutOfMemory → (fault ≡ faults.InvalidBase64)
        × (decoded_of standard text.now ≡ None)) }
{
    match STANDARD.decode(alloc, text.as_bytes()) {
        Ok(bytes) => Ok(bytes),
        Err(DecodeAllocError::OutOfMemory) => Err(Fault::OutOfMemory),
        Err(DecodeAllocError::DecodeError(_)) => Err(Fault::InvalidBase64),
    }
}

/// Encodes `bytes` in standard base64.
pub fn bytes_text(alloc: Global, bytes: &[u8]) -> Result<String, AllocError>
    ensures { IfOk result (λ text. string_bytes text ≡ encode_of standard bytes.now) }
{
    STANDARD.encode(alloc, bytes)
}
