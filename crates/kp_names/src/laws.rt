//! What holds of names whatever the hash does: different keys of one kind have different texts, if
//! they are written as keys of objects are. And how addresses are written.
ghost use Rattle.std.specs.Prelude.{◌≡◌, ◌++◌};
ghost use Rattle.kp_base.specs.declared.key.PortKey.{PortKey};
ghost use Rattle.kp_base.specs.declared.key.Endpoint.{Endpoint};
ghost use Rattle.kp_choice_defs.specs.AddressText.{endpoint_text};
ghost use Rattle.kp_choice_defs.specs.Names.{port_text};
ghost use Rattle.kp_names.specs.WorkedAddresses as worked;
ghost use Rattle.kp_names.specs.Written.{IsWritten, IsWrittenEndpoint};

/// Different Service ports, written as objects and their ports are, have different texts.
pub fn port_texts_differ()
    ensures { (a b : PortKey) → IsWritten a → IsWritten b → port_text a ≡ port_text b → a ≡ b }
{}

/// Different endpoints of IPv4, of such Service ports, have different texts.
pub fn endpoint_texts_differ()
    ensures { (a b : PortKey) (e f : Endpoint) → IsWritten a → IsWritten b
        → IsWrittenEndpoint e → IsWrittenEndpoint f
        → port_text a ++ endpoint_text e ≡ port_text b ++ endpoint_text f → (a ≡ b) × (e ≡ f) }
{}

/// Addresses of IPv6, as RFC 5952 writes them.
#[tactic(auto, unfolding(std::specs::Net::Text::hex_groups_text, std::specs::Net::Text::hex))]
pub fn worked_addresses()
    ensures unspecified { worked.Unspecified }
    ensures loopback { worked.Loopback }
    ensures first_group { worked.FirstGroupAlone }
    ensures mapped { worked.Mapped }
    ensures longer_run { worked.LongerRun }
    ensures first_of_equal_runs { worked.FirstOfEqualRuns }
    ensures one_zero_group { worked.OneZeroGroup }
    ensures lower_case { worked.LowerCase }
{}
