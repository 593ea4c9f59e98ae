//! Classes of links, numbered by their least members.

use link_classes::{Link, joined_classes};
use std::test::Fail;

#[test]
fn classes_by_least_member(rt: HostRuntime) -> Result<(), Fail> {
    let links = [(5, 1), (4, 5), (3, 2), (2, 3), (6, 6)].map(|(one, other)| Link { one, other });
    let found = joined_classes(rt.alloc(), 8, &links)?;
    assert!(rt; found.class_of.as_slice() == [0, 1, 2, 2, 1, 1, 3, 4].as_slice());
    assert!(rt; found.count == 5);
    Ok(())
}
