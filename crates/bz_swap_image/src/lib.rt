//! What the words that a swap memory leaves are in an image. It has laws alone (`proofs/Proved`).
#![tactic(auto)]
