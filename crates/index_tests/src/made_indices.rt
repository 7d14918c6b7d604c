//! Settings that are made by hand, and schemas that no index is made of.

use crate::indexes::new_index;
use definitions::Fault;
use index::Settings;
use options::INDEXED;
use schema::Schema;
use std::alloc::Global;
use std::test::Fail;

// Why no index of `count` fields is made, if none is.
fn fault_of_fields(alloc: Global, count: u32) -> Result<Option<Fault>, Fault> {
    let mut builder = Schema::builder(alloc);
    for number in 0..count {
        let name = format!(in alloc; "{number}")?;
        builder.add_u64_field(&name, INDEXED)?;
    }
    Ok(new_index(alloc, builder.build()).err())
}

#[test]
fn numbers_of_fields(rt: HostRuntime) -> Result<(), Fail> {
    let most = fault_of_fields(rt.alloc(), 65536)?;
    let more = fault_of_fields(rt.alloc(), 65537)?;
    assert!(rt; most.is_none() && more == Some(Fault::TooManyFields));
    Ok(())
}

// Whether settings with a norm for each length say what they were made with, and none are made without a norm.
fn settings_are_kept(alloc: Global) -> Result<bool, Fault> {
    let norms = vec![in alloc; 7; 256]?;
    let made = Settings::new(alloc, 9, 16, 3, 60, Vec::new(alloc), norms)?;
    let refused = Settings::new(alloc, 9, 16, 3, 60, Vec::new(alloc), Vec::new(alloc)).err();
    Ok(
        made.docs_per_segment() == 9
            && made.block_size() == 16
            && made.cache_blocks() == 3
            && made.default_weight() == 60
            && made.weights().is_empty()
            && refused == Some(Fault::BadSettings),
    )
}

#[test]
fn settings_by_hand(rt: HostRuntime) -> Result<(), Fail> {
    assert!(rt; settings_are_kept(rt.alloc())?);
    Ok(())
}
