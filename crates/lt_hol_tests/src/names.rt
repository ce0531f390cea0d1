//! New type variables.
use lt_hol::long_names;
use std::test::Fail;

#[test]
fn new_names_are_made(rt: HostRuntime) -> Result<(), Fail> {
    assert_eq!(rt; long_names(rt.alloc(), 1, 2)?.len(), 2);
    Ok(())
}
