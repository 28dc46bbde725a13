//! Worked examples of the definitions: objects, endpoints, decisions and tables whose values are
//! known from public documents or were worked out by hand. Each is a clause of a function that does
//! nothing.
#![tactic(auto)]

ghost use Rattle.kp_worked.specs.Affinity as affinity;
ghost use Rattle.kp_worked.specs.Chains as chains;
ghost use Rattle.kp_worked.specs.Choices as choices;
ghost use Rattle.kp_worked.specs.Counts as counts;
ghost use Rattle.kp_worked.specs.Entries as entries;
ghost use Rattle.kp_worked.specs.Events as events;
ghost use Rattle.kp_worked.specs.Decisions as decisions;
ghost use Rattle.kp_worked.specs.DualStack as dual;
ghost use Rattle.kp_worked.specs.DualTables as tables;
ghost use Rattle.kp_worked.specs.Families as families;
ghost use Rattle.kp_worked.specs.Lists as lists;
ghost use Rattle.kp_worked.specs.Masquerades as masquerades;
ghost use Rattle.kp_worked.specs.Names as names;
ghost use Rattle.kp_worked.specs.Packing as packing;
ghost use Rattle.kp_worked.specs.Repacking as repacking;
ghost use Rattle.kp_worked.specs.SlicesNow as slices_now;
ghost use Rattle.kp_worked.specs.SourceRanges as ranges;
ghost use Rattle.kp_worked.specs.Walks as walks;
ghost use Rattle.kp_worked.specs.Wanted as wanted;

/// Decisions on packets to a cluster address.
pub fn worked_cluster_addresses()
    ensures first { decisions.FirstOfTwo }
    ensures first_reason { decisions.FirstOfTwoReason }
    ensures first_of_three { decisions.FirstOfThree }
    ensures second_of_three { decisions.SecondOfThree }
    ensures third_of_three { decisions.ThirdOfThree }
    ensures without_draws { decisions.LastWithoutDraws }
    ensures none { decisions.NoEndpoints }
    ensures none_for_node { decisions.NoEndpointsForNode }
    ensures other_protocol { decisions.OtherProtocol }
    ensures no_service { decisions.NoService }
{}

/// Decisions under the internal traffic policy Local.
pub fn worked_internal_policies()
    ensures no_local { decisions.NoLocalEndpoint }
    ensures no_local_reason { decisions.NoLocalEndpointReason }
    ensures none { decisions.NoEndpointAtAll }
    ensures none_reason { decisions.NoEndpointAtAllReason }
{}

/// Decisions with endpoints that terminate, and with hints.
pub fn worked_endpoint_states()
    ensures terminating { decisions.TerminatingServe }
    ensures ready { decisions.ReadyOnly }
    ensures one_without_hint { decisions.OneWithoutHint }
    ensures all_with_hints { decisions.AllWithHints }
{}

/// Decisions on packets to a node port.
pub fn worked_node_ports()
    ensures client { decisions.ClientToNodePort }
    ensures pod { decisions.PodToNodePort }
    ensures node { decisions.NodeToNodePort }
    ensures loopback { decisions.LoopbackNodePort }
    ensures terminating { decisions.TerminatingAtNodePort }
{}

/// Decisions on packets to an external address.
pub fn worked_external_addresses()
    ensures node { decisions.NodeToExternal }
    ensures client { decisions.ClientToExternal }
    ensures next_service { decisions.NextService }
{}

/// Decisions on packets to a load balancer with source ranges.
pub fn worked_source_ranges()
    ensures last { decisions.LastOfRange }
    ensures behind { decisions.BehindRange }
    ensures behind_reason { decisions.BehindRangeReason }
    ensures admitted { decisions.AdmittedToNone }
    ensures admitted_reason { decisions.AdmittedToNoneReason }
{}

/// Decisions on packets to a load balancer whose source ranges are all of another family.
pub fn worked_ranges_of_other_families()
    ensures other_family { ranges.OtherFamily }
    ensures other_family_reason { ranges.OtherFamilyReason }
    ensures other_family_walked { ranges.OtherFamilyWalked }
    ensures none_left { ranges.NoRangeLeft }
    ensures none_left_reason { ranges.NoRangeLeftReason }
    ensures none_left_walked { ranges.NoRangeLeftWalked }
    ensures no_list { ranges.NoList }
{}

/// Endpoints of a Service port.
pub fn worked_lists()
    ensures cluster { lists.ClusterPolicy }
    ensures local { lists.LocalPolicy }
    ensures both { lists.LocalOutside }
    ensures no_endpoint { lists.NoEndpoint }
    ensures ready { lists.ReadyAlone }
    ensures serving { lists.ServingAndTerminating }
    ensures hinted { lists.HintedZone }
    ensures unhinted { lists.OneUnhinted }
    ensures local_hints { lists.LocalWithHints }
    ensures both_hints { lists.BothWithHints }
    ensures not_serving { lists.NotServing }
    ensures not_ready { lists.NotReady }
    ensures terminating { lists.TerminatingHere }
    ensures no_zone { lists.NoZone }
    ensures none_hints_zone { lists.NoneHintsZone }
    ensures hints_elsewhere { lists.HintsElsewhere }
{}

/// Slices, and Services that have no port in the tables.
pub fn worked_slices()
    ensures repeated { lists.InTwoSlices }
    ensures of_names { lists.OfNames }
    ensures other_port { lists.OtherPortName }
    ensures headless { lists.NoneForHeadless }
    ensures external_name { lists.NoneForExternalName }
    ensures external_once { lists.ExternalOnce }
    ensures balancer { lists.BalancerOfType }
    ensures other_type { lists.BalancerOfOtherType }
{}

/// Endpoints that stand in several entries.
pub fn worked_entries()
    ensures repeated { entries.Repeated }
    ensures other_protocol { entries.OtherProtocol }
{}

/// Pods that a Service selects.
pub fn worked_selectors()
    ensures all_terms { wanted.AllTerms }
    ensures other_value { wanted.OtherValue }
    ensures no_term { wanted.NoTerm }
    ensures another_name { wanted.AnotherName }
    ensures elsewhere { wanted.Elsewhere }
{}

/// Endpoints that the controller wants of pods.
pub fn worked_pods()
    ensures states { wanted.EveryState }
    ensures named_port { wanted.NamedPort }
    ensures ready { wanted.ReadyPod }
    ensures finished { wanted.Finished }
    ensures unselected { wanted.Unselected }
    ensures other_namespace { wanted.OtherNamespace }
    ensures without_port { wanted.WithoutPort }
    ensures no_selector { wanted.NoSelector }
    ensures not_ready { wanted.NotReadyPublished }
    ensures same_zone { wanted.SameZone }
    ensures last_of_name { wanted.LastOfName }
    ensures first_of_ports { wanted.FirstOfPorts }
    ensures other_target { wanted.OtherTarget }
{}

/// Which packets are masqueraded.
pub fn worked_masquerades()
    ensures inside { masquerades.Inside }
    ensures itself { masquerades.ToItself }
    ensures outside { masquerades.FromOutside }
    ensures all { masquerades.All }
    ensures no_range { masquerades.NoRange }
    ensures itself_no_range { masquerades.ToItselfNoRange }
    ensures node_port { masquerades.ThroughNodePort }
    ensures local { masquerades.LocalKeepsSource }
    ensures node { masquerades.ToNode }
{}

/// The configuration as a family sees it.
pub fn worked_families()
    ensures own { families.OwnRange }
    ensures other { families.OtherRange }
    ensures other_own { families.OtherOwnRange }
    ensures view { families.ViewIsSetting }
    ensures addresses { families.AllAddresses }
    ensures source { families.KeepsSource }
    ensures mark { families.NoMark }
{}

/// Probabilities and draws.
pub fn worked_draws()
    ensures third { choices.OneThird }
    ensures half { choices.OneHalf }
    ensures half_to_even { choices.HalfToEven }
    ensures threshold { choices.ThirdOfDraws }
    ensures below { choices.LastBelow }
    ensures above { choices.FirstAbove }
    ensures past_end { choices.PastEnd }
    ensures greatest_at_half { choices.GreatestAtHalf }
    ensures greatest_at_one { choices.GreatestAtOne }
{}

/// Names of chains, and chains of one name.
pub fn worked_names()
    ensures base32 { names.Foobar }
    ensures api_server { names.ApiServer }
    ensures dns { names.Dns }
    ensures endpoint { names.OfEndpoint }
    ensures clash { names.Clashing }
    ensures one { names.OneEndpoint }
    ensures whole_names { names.WholeNames }
{}

/// The chains of a Service with one endpoint.
pub fn worked_chains()
    ensures places { chains.AllPlaces }
    ensures prerouting { chains.Prerouting }
    ensures postrouting { chains.Postrouting }
    ensures mark_masq { chains.MarkMasq }
    ensures kube_postrouting { chains.KubePostrouting }
    ensures kube_services { chains.KubeServices }
    ensures service { chains.ServiceChain }
    ensures endpoint { chains.EndpointChain }
    ensures forward { chains.Forward }
    ensures kube_forward { chains.KubeForward }
    ensures no_refusal { chains.NoRefusal }
{}

/// Walks through the chains of full tables.
pub fn worked_walks()
    ensures way { walks.Way }
    ensures way_of_masqueraded { walks.WayOfMasqueraded }
    ensures no_local { walks.NoLocalEndpoint }
    ensures client_to_node_port { walks.ClientToNodePort }
    ensures pod_to_node_port { walks.PodToNodePort }
    ensures node_to_node_port { walks.NodeToNodePort }
    ensures loopback_node_port { walks.LoopbackNodePort }
    ensures to_node { walks.ToNode }
    ensures node_to_external { walks.NodeToExternal }
    ensures client_to_external { walks.ClientToExternal }
    ensures next_service { walks.NextService }
    ensures last_of_range { walks.LastOfRange }
    ensures behind_range { walks.BehindRange }
    ensures admitted_to_none { walks.AdmittedToNone }
{}

/// Chains that a first sync writes.
pub fn worked_first_syncs()
    ensures two { counts.TwoEndpoints }
    ensures three { counts.ThreeEndpoints }
    ensures none { counts.NoEndpoints }
    ensures no_local { counts.NoLocalEndpoint }
    ensures node_port { counts.LocalNodePort }
    ensures external { counts.ExternalOfNone }
    ensures ranges { counts.SourceRanges }
    ensures ranges_of_none { counts.SourceRangesOfNone }
    ensures balancer { counts.LocalBalancer }
{}

/// Chains that later syncs write and remove.
pub fn worked_later_syncs()
    ensures last_local { counts.LastLocalGoes }
    ensures one_goes { counts.OneGoes }
    ensures comes_back { counts.ComesBack }
    ensures hint { counts.HintLeavesOut }
    ensures reject { counts.RejectForDrop }
    ensures service_goes { counts.ServiceGoes }
{}

/// Decisions one after another, under session affinity.
pub fn worked_affinity()
    ensures timeout { affinity.Timeout }
    ensures full { affinity.FullPart }
    ensures reasons { affinity.Reasons }
{}

/// Decisions by the objects after events.
pub fn worked_events()
    ensures served { events.Served }
    ensures slice_first { events.SliceFirst }
    ensures replaced { events.Replaced }
    ensures deleted { events.Deleted }
    ensures deleted_absent { events.DeletedAbsent }
    ensures of_other_service { events.OfOtherService }
    ensures in_zone { events.InZone }
    ensures pods_and_slice { events.PodsAndSlice }
    ensures pod_not_ready { events.PodNotReady }
    ensures pod_finished { events.PodFinished }
{}

/// Slices packed into new ones.
pub fn worked_packing()
    ensures new { packing.NewSlices }
    ensures nearly_full { packing.NearlyFull }
    ensures changed { packing.ChangedIsFilled }
    ensures fullest { packing.FullestTakes }
    ensures emptied { packing.EmptiedIsDeleted }
    ensures taken { packing.TakenNames }
    ensures groups { packing.Groups }
    ensures state { packing.ChangedState }
    ensures unchanged { packing.Unchanged }
{}

/// Slices packed again, with other endpoints.
pub fn worked_repacking()
    ensures new { repacking.OneNew }
    ensures fullest { repacking.FullestOfTwo }
    ensures filled { repacking.FilledAgain }
    ensures shrunk { repacking.Shrunk }
    ensures other_ports { repacking.OtherPorts }
    ensures unchanged { repacking.TenAgain }
{}

/// Endpoints, slices and ports of Services of both families.
pub fn worked_dual_stack()
    ensures in_six { dual.InSix }
    ensures in_four { dual.InFour }
    ensures one_family { dual.OneFamily }
    ensures six_alone { dual.SixAlone }
    ensures without_address { dual.WithoutAddress }
    ensures other_address { dual.OtherAddress }
    ensures other_slice { dual.OtherSlice }
    ensures new_slice { dual.NewSlice }
    ensures slices_of_both { dual.SlicesOfBoth }
    ensures family_goes { dual.FamilyGoes }
    ensures known_in_six { dual.KnownInSix }
    ensures known_in_four { dual.KnownInFour }
    ensures no_port_in_six { dual.NoPortInSix }
{}

/// Walks, decisions, chains and clashes of a node with tables of both families.
pub fn worked_dual_tables()
    ensures from_pod { tables.FromPod }
    ensures from_outside { tables.FromOutside }
    ensures decided_from_pod { tables.DecidedFromPod }
    ensures decided_from_outside { tables.DecidedFromOutside }
    ensures in_four { tables.InFour }
    ensures without_six { tables.WithoutSix }
    ensures decided_without_six { tables.DecidedWithoutSix }
    ensures at_node { tables.AtNode }
    ensures at_loopback { tables.AtLoopback }
    ensures decided_at_loopback { tables.DecidedAtLoopback }
    ensures chain_of_six { tables.ChainOfSix }
    ensures node_ports_of_six { tables.NodePortsOfSix }
    ensures no_chain_of_six { tables.NoChainOfSix }
    ensures no_clash { tables.NoClash }
    ensures four_first { tables.FourFirst }
{}

/// Slices as they are now, over syncs.
pub fn worked_slices_now()
    ensures before { slices_now.BeforeSync }
    ensures first { slices_now.AfterSync }
    ensures change { slices_now.AfterChange }
    ensures second { slices_now.AfterSecondSync }
    ensures service_goes { slices_now.AfterServiceGoes }
    ensures third { slices_now.AfterThirdSync }
{}
