//! Worked examples of the definitions. Each is a clause of a function that does nothing.
ghost use Rattle.kp_track_defs.specs.Worked as worked;

/// Later flows and replies of an open connection, and flows of others.
pub fn worked_answers()
    ensures nobody_owns { worked.NobodyOwns }
    ensures later_follows { worked.LaterFollows }
    ensures reply_has_door { worked.ReplyHasDoor }
    ensures later_verdict_is_unseen { worked.LaterVerdictIsUnseen }
    ensures masked_later { worked.MaskedLater }
    ensures masked_has_no_reply { worked.MaskedHasNoReply }
    ensures port_zero_later { worked.PortZeroLater }
    ensures port_zero_has_no_reply { worked.PortZeroHasNoReply }
    ensures other_protocol { worked.OtherProtocol }
    ensures other_source { worked.OtherSource }
    ensures other_source_port { worked.OtherSourcePort }
    ensures other_target { worked.OtherTarget }
    ensures other_port { worked.OtherPort }
    ensures other_family { worked.OtherFamily }
    ensures endpoint_is_not_door { worked.EndpointIsNotDoor }
{}

/// Which flows are kept.
pub fn worked_openers()
    ensures kept_by_verdict { worked.KeptByVerdict }
    ensures left_alone_owns_nothing { worked.LeftAloneOwnsNothing }
{}

/// Connections at their timeouts, and one second past them.
pub fn worked_timeouts()
    ensures udp_at_timeout { worked.UdpAtTimeout }
    ensures udp_past_timeout { worked.UdpPastTimeout }
    ensures tcp_at_timeout { worked.TcpAtTimeout }
    ensures tcp_past_timeout { worked.TcpPastTimeout }
    ensures sctp_at_timeout { worked.SctpAtTimeout }
    ensures sctp_past_timeout { worked.SctpPastTimeout }
    ensures later_renews { worked.LaterRenews }
    ensures later_renews_once { worked.LaterRenewsOnce }
    ensures reply_renews { worked.ReplyRenews }
    ensures moment_stays { worked.MomentStays }
    ensures earlier_moment_is_owned { worked.EarlierMomentIsOwned }
    ensures opens_anew { worked.OpensAnew }
{}

/// Several openers with one reply, and a flow that two may own.
pub fn worked_replies()
    ensures earlier_replies { worked.EarlierReplies }
    ensures later_one_replies { worked.LaterOneReplies }
    ensures connection_before_reply { worked.ConnectionBeforeReply }
{}

/// Openers after a sync without their endpoint.
pub fn worked_syncs()
    ensures udp_is_cleared { worked.UdpIsCleared }
    ensures udp_reply_is_cleared { worked.UdpReplyIsCleared }
    ensures udp_is_sent_anew { worked.UdpIsSentAnew }
    ensures tcp_stays { worked.TcpStays }
    ensures sctp_stays { worked.SctpStays }
    ensures udp_stays { worked.UdpStays }
    ensures nothing_comes_back { worked.NothingComesBack }
{}

/// Which endpoints stand.
pub fn worked_standing()
    ensures stands_by_cluster { worked.StandsByCluster }
    ensures stands_by_local { worked.StandsByLocal }
    ensures tcp_stands_for_nothing { worked.TcpStandsForNothing }
    ensures others_stand_alone { worked.OthersStandAlone }
    ensures stands_by_another_port { worked.StandsByAnotherPort }
{}
