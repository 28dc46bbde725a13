//! Which hub it is.
use kp_publish::Publication;
use std::marker::Brand;

/// Which hub it is: its queue, how many streams feed it, and its configuration, beside its history.
/// Each call of a program picks it.
pub trait Sharing: Publication {
    ghost use Rattle.std.specs.Prelude.{ℕ};
    ghost use Rattle.kp_base.specs.declared.config.Config.{Config};
    ghost use Rattle.kp_feed.specs.Passes.{QueueId};

    ghost queue: { QueueId };

    ghost streams: { ℕ };

    ghost config: { Config };
}

impl Sharing for Brand {
    ghost use Rattle.kp_text_defs.specs.ConfigText.{default_config};

    ghost queue = { (0, 0) };

    ghost streams = { 0 };

    ghost config = { default_config };
}
