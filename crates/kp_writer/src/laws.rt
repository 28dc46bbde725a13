//! What the ports of a writer are, where by each name it knows what some objects tell.
ghost use Rattle.kp_writer.specs.Known as spec;

/// The ports of objects are what the proxy knows of all ports of these.
pub fn known_ports()
    ensures { spec.KnownPorts }
{
    kp_history_laws::infos_by_name();
    kp_table_laws::ports_are_in_order();
}

/// What is known of the ports of one Service is found by their names.
pub fn known_of_service()
    ensures { spec.KnownOfService }
{
    kp_object_laws::ports_by_key();
}

/// The dirty ports are those of which something else is known after than before, and what is known
/// of them before and after is that of their names.
pub fn known_dirty_ports()
    ensures ports { spec.KnownDirtyPorts }
    ensures written { spec.DirtyWritten }
    ensures newest { spec.DirtyNewest }
{
    kp_history_laws::dirty_ports();
    kp_object_laws::ports_by_key();
}
