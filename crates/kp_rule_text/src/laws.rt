//! What holds of the lines of rules, and worked examples of them.
ghost use Rattle.kp_rule_text.specs.Lines.{RuleLinesDiffer};
ghost use Rattle.kp_rule_text.specs.WorkedLines as worked;

/// The lines of two canonical rules of chains that have names are equal only where chain and rule
/// are.
pub fn rule_lines_differ()
    ensures { RuleLinesDiffer }
{}

/// The lines of rules as kube-proxy writes them.
pub fn worked_lines()
    ensures from_outside { worked.FromOutside }
    ensures to_node { worked.ToNode }
    ensures from_node { worked.FromNode }
    ensures one_of_three { worked.OneOfThree }
    ensures seen_of_late { worked.SeenOfLate }
    ensures to_endpoint { worked.ToEndpoint }
    ensures to_ipv6_endpoint { worked.ToIpv6Endpoint }
    ensures unmarked { worked.Unmarked }
    ensures mark_flipped { worked.MarkFlipped }
    ensures masqueraded { worked.Masqueraded }
    ensures mark_set { worked.MarkSet }
    ensures forwarded { worked.Forwarded }
    ensures rejected { worked.Rejected }
{}
