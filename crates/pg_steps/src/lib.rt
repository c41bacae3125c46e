//! Words and lemmas of one step: some of the signalled vertices execute at once.
#![tactic(auto)]
