//! Members of a Service that are one of some texts.
ghost use Rattle.std.specs.Prelude.{◌≡◌, codes, option_map, false};
ghost use Rattle.kp_json.specs.Views.{place_of};
ghost use Rattle.kp_row_defs.specs.Fields.{chosen, is_text, text_in, texts_of};
ghost use Rattle.kp_row_defs.specs.Reads.{Reads};
ghost use Rattle.kp_row_defs.specs.Rows.{optional, any_text, choice, field_fault};
ghost use Rattle.kp_event_defs.specs.ServiceText.{service_kinds, policies, affinities};

use kp_fields::{TextForm, choice_field, is_text, text_field};
use kp_json::{FieldFault, Spot};
use kp_types::{Policy, ServiceKind};
use std::alloc::Global;

/// The type of a Service.
pub(crate) fn kind_field<'a>(alloc: Global, spec: &'a Spot<'a>) -> Result<ServiceKind, FieldFault>
    ensures { Reads (λ k. k) result
        (field_fault (codes "type") optional (choice (texts_of service_kinds)) (place_of spec.now))
        (chosen service_kinds ServiceKind.ClusterIp (text_in (codes "type") (place_of spec.now))) }
{
    let kinds = ["ClusterIP", "NodePort", "LoadBalancer", "ExternalName"];
    let text = choice_field(alloc, spec, "type", &kinds)?;
    Ok(kind_of(text))
}

fn kind_of(text: Option<&str>) -> ServiceKind
    ensures { result
        ≡ chosen service_kinds ServiceKind.ClusterIp (option_map (λ t. t.now) text.entry) }
{
    match text {
        Some("NodePort") => ServiceKind::NodePort,
        Some("LoadBalancer") => ServiceKind::LoadBalancer,
        Some("ExternalName") => ServiceKind::ExternalName,
        _ => ServiceKind::ClusterIp,
    }
}

/// A traffic policy.
pub(crate) fn policy_field<'a>(
    alloc: Global,
    spec: &'a Spot<'a>,
    name: &'a str,
) -> Result<Policy, FieldFault>
    ensures { Reads (λ p. p) result
        (field_fault name.now optional (choice (texts_of policies)) (place_of spec.now))
        (chosen policies Policy.Cluster (text_in name.now (place_of spec.now))) }
{
    let text = choice_field(alloc, spec, name, &["Cluster", "Local"])?;
    Ok(policy_of(text))
}

fn policy_of(text: Option<&str>) -> Policy
    ensures { result ≡ chosen policies Policy.Cluster (option_map (λ t. t.now) text.entry) }
{
    match text {
        Some("Local") => Policy::Local,
        _ => Policy::Cluster,
    }
}

/// Whether session affinity by client address is on.
pub(crate) fn affinity_field<'a>(alloc: Global, spec: &'a Spot<'a>) -> Result<bool, FieldFault>
    ensures { Reads (λ b. b) result
        (field_fault (codes "sessionAffinity") optional (choice (texts_of affinities))
        (place_of spec.now))
        (chosen affinities false (text_in (codes "sessionAffinity") (place_of spec.now))) }
{
    let text = choice_field(alloc, spec, "sessionAffinity", &["None", "ClientIP"])?;
    Ok(is_client_ip(text))
}

fn is_client_ip(text: Option<&str>) -> bool
    ensures { result ≡ chosen affinities false (option_map (λ t. t.now) text.entry) }
{
    matches!(text, Some("ClientIP"))
}

/// Whether traffic stays in its zone where it can.
pub(crate) fn same_zone_field<'a>(alloc: Global, spec: &'a Spot<'a>) -> Result<bool, FieldFault>
    ensures { Reads (λ b. b) result
        (field_fault (codes "trafficDistribution") optional any_text (place_of spec.now))
        (is_text (codes "PreferClose")
        (text_in (codes "trafficDistribution") (place_of spec.now))) }
{
    let text = text_field(alloc, spec, "trafficDistribution", TextForm::Any)?;
    Ok(is_text(text, "PreferClose"))
}
