//! Exact mathematics: the laws of whole numbers that std lacks, `ring`, rational numbers, sums and vectors. All of it is in specs/.
#![tactic(auto)]
