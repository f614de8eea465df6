//! Sets of patterns.

use crate::written::set_of;
use std::alloc::AllocError;
use std::test::Fail;

#[test]
fn patterns_rise_by_their_bytes_and_stand_once(rt: HostRuntime) -> Result<(), Fail> {
    let set = set_of(rt.alloc(), &[b"b", b"ab", b"", b"b", b"a", b"ab"])?;
    let rising: [&[u8]; 4] = [b"", b"a", b"ab", b"b"];
    assert_eq!(rt; set.members().len(), rising.len());
    for (member, text) in set.members().iter().zip(rising.iter()) {
        assert_eq!(rt; member.as_slice(), *text);
    }
    Ok(())
}

#[test]
fn sets_are_equal_whatever_was_put_in_first(rt: HostRuntime) -> Result<(), AllocError> {
    let one = set_of(rt.alloc(), &[b"x", b"y"])?;
    let other = set_of(rt.alloc(), &[b"y", b"x", b"y"])?;
    assert!(rt; one == other);
    assert!(rt; one != set_of(rt.alloc(), &[b"x"])?);
    Ok(())
}
