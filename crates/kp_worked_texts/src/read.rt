//! Objects and lines that are known from what people write in them.
ghost use Rattle.kp_worked_texts.specs.EndpointSlices as slices;
ghost use Rattle.kp_worked_texts.specs.Lines as lines;
ghost use Rattle.kp_worked_texts.specs.Pods as pods;
ghost use Rattle.kp_worked_texts.specs.Services as services;

/// Services with all members, with none, with empty ones, with members of both families, and with
/// faults.
pub fn worked_services()
    ensures all { services.All }
    ensures defaults { services.Defaults }
    ensures empty { services.Empty }
    ensures six_alone { services.SixAlone }
    ensures six_first { services.SixFirst }
    ensures list_hides { services.ListHides }
    ensures listed { services.Listed }
    ensures headless_six { services.HeadlessSix }
    ensures none_anywhere { services.NoneAnywhere }
    ensures first_of_family { services.FirstOfFamily }
    ensures faults { services.Faults }
    ensures closed { services.Closed }
{}

/// Slices with all members, and of other address types.
pub fn worked_endpoint_slices()
    ensures all { slices.All }
    ensures host_names { slices.HostNames }
    ensures in_six { slices.InSix }
    ensures other_family { slices.OtherFamily }
    ensures fault { slices.Fault }
{}

/// Pods with all members, with addresses of both families and in their phases, and nodes.
pub fn worked_pods()
    ensures all { pods.All }
    ensures six_first { pods.SixFirst }
    ensures list_hides { pods.ListHides }
    ensures empty_list { pods.EmptyList }
    ensures faults { pods.Faults }
    ensures succeeded { pods.Succeeded }
    ensures failed { pods.Failed }
    ensures other_phase { pods.OtherPhase }
    ensures zoned { pods.Zoned }
    ensures unzoned { pods.Unzoned }
{}

/// The members of packets and of settings, and what they are where nothing is said.
pub fn worked_members()
    ensures packet { lines.AllOfPacket }
    ensures six { lines.PacketOfSix }
    ensures plain { lines.PlainPacket }
    ensures listed { lines.ListBeforeSeed }
    ensures seeded { lines.SeedAlone }
    ensures setting { lines.AllOfSetting }
    ensures default { lines.DefaultSetting }
    ensures none { lines.NoSetting }
    ensures packet_faults { lines.PacketFaults }
    ensures setting_faults { lines.SettingFaults }
{}
