//! Words of edges, kept for all or each on its own.

use crate::edge_words::{Change, EdgeWords};
use std::test::Fail;

#[test]
fn words_are_the_same_however_they_are_kept(rt: HostRuntime) -> Result<(), Fail> {
    let alloc = rt.alloc();
    assert_eq!(rt; EdgeWords::new(alloc).len(), 0);
    for [first, second, third] in [[7, 7, 7], [7, 8, 7], [0, 0, 9]] {
        let mut words = EdgeWords::new(alloc);
        words.push(first)?;
        words.push(second)?;
        words.push(third)?;
        assert_eq!(rt; words.len(), 3);
        assert_eq!(rt;
            words.to_vec(alloc)?.as_slice(),
            [first, second, third].as_slice()
        );
        let listed = EdgeWords::from(Vec::from_slice(alloc, &[first, second, third])?);
        assert_eq!(rt;
            listed.to_vec(alloc)?.as_slice(),
            [first, second, third].as_slice()
        );
    }
    Ok(())
}

#[test]
fn a_change_is_of_one_edge(rt: HostRuntime) -> Result<(), Fail> {
    let alloc = rt.alloc();
    let mut words = EdgeWords::new(alloc);
    words.push(5)?;
    words.push(5)?;
    words.push(5)?;
    words.write(&[Change { edge: 1, word: 6 }, Change { edge: 1, word: 7 }])?;
    assert_eq!(rt; words.to_vec(alloc)?.as_slice(), [5, 7, 5].as_slice());
    assert_eq!(rt; words.word(1), 7);
    Ok(())
}
