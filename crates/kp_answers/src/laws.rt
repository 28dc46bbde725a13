//! What holds of the draws of every line.
ghost use Rattle.std.specs.Prelude.{ℕ, ◌<◌, ◌^◌};
ghost use Rattle.kp_run_defs.specs.AnswerText.{draws_at};
ghost use Rattle.kp_text_defs.specs.declared.packet.PacketLine.{PacketLine};

/// They are numbers of 31 bits, as the statistic match of iptables-extensions draws them.
pub fn draws_are_low()
    ensures { (number : ℕ) (line : PacketLine) (k : ℕ) → draws_at number line.draws k < 2 ^ 31 }
{}
