//! What is known of single ports but their lists, which are found by their names.
ghost use Rattle.std.specs.Prelude.{◌≡◌, IfOk, option_map};
ghost use Rattle.kp_types.specs.Setting.{config_for};
ghost use Rattle.kp_object_defs.specs.PortByKey as spec;
ghost use Rattle.kp_changes.specs.Bare.{no_lists as none, without_lists};

use kp_base::{Config, Family, Items, NoMemory, PortKey};
use kp_port_by_key::port_named;
use kp_port_info::port_info;
use kp_store::Objects;
use kp_types::{Lists, PortInfo};
use std::alloc::Global;

/// What a family knows of where the port of a name is: all but its lists.
pub fn bare_info_at(
    alloc: Global,
    family: Family,
    config: &Config,
    objects: &Objects,
    key: &PortKey,
) -> Result<Option<PortInfo>, NoMemory>
    ensures { IfOk result (λ info. info ≡ option_map without_lists
        (spec.info_at family (config_for family config.now) objects.now key.now)) }
{
    let Some(service) = objects.service(&key.object) else {
        return Ok(None);
    };
    let Some(port) = port_named(key, service) else {
        return Ok(None);
    };
    port_info(alloc, family, service, port, no_lists(alloc))
}

/// No endpoints.
fn no_lists(alloc: Global) -> Lists
    ensures { result ≡ none }
{
    Lists {
        cluster: Items::new(alloc),
        local: Items::new(alloc),
        has_any: false,
    }
}
