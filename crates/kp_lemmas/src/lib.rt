//! Words and facts about lists, options, orders, maps and numbers that std doesn't have. It has no
//! code.
#![tactic(auto)]
