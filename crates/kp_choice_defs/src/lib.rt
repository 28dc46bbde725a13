//! What the choice of an endpoint means: draws and the statistic match, recent lists, names of
//! chains and their clashes, and printed addresses. There are only definitions here, in `specs/`.
#![tactic(auto)]
