//! What a line of a replay may ask for, by where the replay stands: a configuration is read from the
//! first line alone, before all events. There are only definitions and lemmas here.
#![tactic(auto)]
