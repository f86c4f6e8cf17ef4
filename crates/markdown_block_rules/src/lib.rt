//! What a text's blocks are, by CommonMark 0.31.2, as a definition. There is no code.
#![tactic(auto)]
