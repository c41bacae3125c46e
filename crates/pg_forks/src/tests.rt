//! A fork from its start to a pass, as rows, and all sixteen words.
use crate::{ForkWord, Why};
use pg_graph::Side;
use std::test::Fail;

/// A word by its number.
fn word(bits: u64) -> Option<ForkWord> {
    ForkWord::of_bits(bits)
}

/// A fork that stands at the target, dirty, as every fork does at the start where the target has
/// the larger number.
fn at_target() -> ForkWord {
    ForkWord {
        side: Side::Target,
        dirty: true,
        asked: false,
        pinned: false,
    }
}

#[test]
fn sixteen_numbers_are_words(rt: HostRuntime) -> Result<(), Fail> {
    for bits in 0..16 {
        match word(bits) {
            Some(fork) => assert_eq!(rt; fork.bits(), bits),
            None => assert!(rt; false, "{bits} is a word"),
        }
    }
    assert_eq!(rt; word(16), None);
    assert_eq!(rt; word(u64::MAX), None);
    assert_eq!(rt; at_target().bits(), 3);
    Ok(())
}

#[test]
fn an_end_pins_takes_and_asks_by_the_table(rt: HostRuntime) -> Result<(), Fail> {
    let (source, target) = (Side::Source, Side::Target);
    let fork = at_target();
    assert_eq!(rt; fork.pin(target), word(11), "the holder pins");
    assert_eq!(rt; fork.pin(source), None, "the other end doesn't pin");
    assert_eq!(rt;
        fork.take(source),
        word(8),
        "a dirty fork is taken, and is clean"
    );
    assert_eq!(rt; fork.take(target), None, "the holder has nothing to take");
    assert_eq!(rt; fork.ask(source), None, "what can be taken isn't asked for");
    let Some(busy) = fork.pin(target) else {
        return Ok(());
    };
    assert_eq!(rt; busy.take(source), None, "a pinned fork isn't taken");
    assert_eq!(rt; busy.ask(source), word(15), "a pinned fork is asked for");
    assert_eq!(rt; busy.ask(target), None, "the holder doesn't ask");
    Ok(())
}

/// What the word of this number becomes when the target gives it back.
fn back(bits: u64, committed: bool, taken: bool, evidence: bool) -> Option<ForkWord> {
    let why = Why {
        committed,
        taken,
        evidence,
    };
    match word(bits) {
        Some(fork) => fork.back(Side::Target, why),
        None => None,
    }
}

#[test]
fn a_fork_goes_back_by_the_first_case_that_applies(rt: HostRuntime) -> Result<(), Fail> {
    let stays = back(11, true, false, true);
    assert_eq!(rt; stays, word(3), "committed, nobody asks: it stays, dirty");
    let asked = back(15, true, false, true);
    assert_eq!(rt; asked, word(0), "committed, asked: it goes over, clean");
    let clean = back(13, true, true, true);
    assert_eq!(rt;
        clean,
        word(0),
        "committed, clean and asked: it goes over, clean"
    );
    let dirty = back(15, false, false, true);
    assert_eq!(rt; dirty, word(0), "dirty and asked: it goes over, clean");
    let idle = back(9, false, true, false);
    assert_eq!(rt; idle, word(2), "taken without evidence: it goes back dirty");
    let owed = back(13, false, true, true);
    assert_eq!(rt;
        owed,
        word(5),
        "taken with evidence: it stays, and the wish too"
    );
    let kept = back(11, false, false, false);
    assert_eq!(rt; kept, word(3), "not taken: it stays as it was");
    let unpinned = back(3, false, false, false);
    assert_eq!(rt; unpinned, None, "an unpinned fork doesn't go back");
    let other = back(8, false, false, false);
    assert_eq!(rt; other, None, "nor does one that the other end pinned");
    Ok(())
}

#[test]
fn only_a_dirty_asked_and_pinned_fork_is_handed_over(rt: HostRuntime) -> Result<(), Fail> {
    for bits in 0..16 {
        let went = match word(bits) {
            Some(fork) => fork.hand_over(Side::Target),
            None => None,
        };
        let expected = if bits == 15 { word(0) } else { None };
        assert_eq!(rt; went, expected, "{bits}");
    }
    Ok(())
}
