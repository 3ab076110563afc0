//! The generated set of 7, against sums that another program took of its files.
use super::building::sums_of;
use media_build::make;
use std::alloc::Global;
use std::test::Fail;

/// The CRC-32 of each list and of each file, in their order.
fn made_sums(alloc: Global, number: u32) -> Result<Vec<u32>, Fail> {
    let built = make(alloc, number)?;
    let sums = sums_of(alloc, &built);
    drop(built);
    sums
}

#[test]
fn the_set_of_7_is_made(rt: HostRuntime) -> Result<(), Fail> {
    let sums = made_sums(rt.alloc(), 7)?;
    let known = [0x35F0_3B8B, 0x5A2B_1AF0, 0x9E3F_8102, 0xF88C_3566].as_slice();
    assert_eq!(rt; sums.as_slice(), known);
    Ok(())
}
