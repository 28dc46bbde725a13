//! What the endpoints of a Service are taken from.
ghost use Rattle.std.specs.Prelude.{◌≡◌, ◌&&◌, map, IfOk};
ghost use Rattle.kp_types.specs.Setting.{config_for};
ghost use Rattle.kp_object_defs.specs.Desired as desired;
ghost use Rattle.kp_object_defs.specs.Entries as spec;

use kp_base::{Config, Family, Items, NoMemory};
use kp_store::{Objects, wanted_of};
use kp_types::{Service, ServiceKind, Slice, Wanted};
use std::alloc::Global;
use std::marker::Model;

/// A Service and what its endpoints are taken from: the endpoints that the controller wants for it,
/// and slices. The objects lend the Service and the slices; contracts see them all.
#[derive(Drop)]
pub struct Sources<'a> {
    pub service: &'a Service,
    pub wanted: Items<Wanted>,
    pub slices: Vec<&'a Slice>,
}

impl<'a> Model for Sources<'a> {
    ghost use Rattle.std.specs.Prelude.{map};
    ghost use Rattle.kp_types.specs.declared.info.ServiceSources.{ServiceSources};
    ghost use Rattle.kp_types.specs.contracts.info.ServiceSources as sources_row;

    ghost Value = { ServiceSources };

    ghost coded = { sources_row.the_row.coded };

    ghost view = { λ s. record {
      service = s.service.now;
      wanted = s.wanted;
      slices = map (λ slice. slice.now) s.slices.items;
    } };
}

/// What the endpoints of a Service in a family are taken from: where the controller makes slices for
/// it, the endpoints that it wants and the slices that it doesn't manage, or else all slices.
pub fn sources_of<'a>(
    alloc: Global,
    family: Family,
    objects: &'a Objects,
    config: &Config,
    service: &'a Service,
) -> Result<Sources<'a>, NoMemory>
    ensures { IfOk result (λ s. s
        ≡ spec.sources_of family (config_for family config.now) objects.now service.now) }
{
    let slices = objects.slices_found(alloc, &service.key)?;
    if is_reconciled(config, service) {
        Ok(Sources {
            service,
            wanted: wanted_of(alloc, objects, service, family)?,
            slices: unmanaged(alloc, slices.as_slice())?,
        })
    } else {
        Ok(Sources {
            service,
            wanted: Items::new(alloc),
            slices,
        })
    }
}

/// Whether the controller makes slices for a Service.
fn is_reconciled(config: &Config, service: &Service) -> bool
    ensures { result ≡ (config.now.controller && desired.has_selector service.now) }
{
    config.controller
        && !service.selector.as_slice().is_empty()
        && service.kind != ServiceKind::ExternalName
}

/// The slices that the controller doesn't manage.
fn unmanaged<'a>(alloc: Global, slices: &[&'a Slice]) -> Result<Vec<&'a Slice>, NoMemory>
    ensures { IfOk result (λ ss. map (λ s. s.now) ss.items
        ≡ spec.unmanaged (map (λ s. s.now) slices.now)) }
{
    let mut unmanaged = Vec::new(alloc);
    for slice in slices {
        if !slice.managed {
            unmanaged.push(*slice)?;
        }
    }
    Ok(unmanaged)
}
