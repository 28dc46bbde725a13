//! Lines of a script, worked out by their definition.
ghost use Rattle.std.specs.Prelude.{◌≡◌, codes, true, false, [], ◌∷◌, Some, None, Ok, Err};
ghost use Rattle.serde_json.specs.Data.{object, member, no_members, string, boolean, array, item, no_items};
ghost use Rattle.kp_json.specs.Answers.{fault_at};
ghost use Rattle.kp_json.specs.declared.fault.Why.TheVariants.{BadName, Missing, WrongType};
ghost use Rattle.kp_text_defs.specs.PacketText.{draws_of};
ghost use Rattle.kp_text_defs.specs.ScriptLines.{read_script};
ghost use Rattle.kp_text_defs.specs.StreamNames.{stream_of};
ghost use Rattle.kp_text_defs.specs.declared.draws.Draws.TheVariants as draws;
ghost use Rattle.kp_text_defs.specs.declared.stream.Stream.TheVariants.{Main};
ghost use Rattle.kp_text_defs.specs.declared.line_refusal.LineRefusal.TheVariants.{Bad, ConfigLate, NotEvent, UnknownOp};

/// What isn't an object is no event.
pub fn a_list_is_no_event()
    ensures { read_script true (record { value = array no_items; path = [] }) ≡ Err NotEvent }
{}

/// A configuration behind the first line is late, whatever its members are.
pub fn a_later_configuration_is_late()
    ensures { read_script false
        (record {
          value = object (member (codes "node") (boolean true)
              (member (codes "op") (string (codes "config")) no_members));
          path = [];
        })
        ≡ Err ConfigLate }
{}

/// The stream of a line is read before its command.
pub fn a_stream_is_read_first()
    ensures { read_script false
        (record {
          value = object (member (codes "by") (string [])
              (member (codes "op") (string (codes "pull")) no_members));
          path = [];
        })
        ≡ Err (Bad (fault_at BadName (codes "by"))) }
{}

/// Another command isn't known.
pub fn another_command_is_not_known()
    ensures { read_script false
        (record {
          value = object (member (codes "op") (string (codes "pull")) no_members);
          path = [];
        })
        ≡ Err (UnknownOp (codes "pull")) }
{}

/// A packet's members are read in order: the source before the destination.
pub fn a_source_is_read_before_a_destination()
    ensures { read_script false
        (record {
          value = object (member (codes "dst") (boolean true)
              (member (codes "op") (string (codes "packet")) no_members));
          path = [];
        })
        ≡ Err (Bad (fault_at Missing (codes "src"))) }
{}

/// The paths of an event begin with the member that holds it.
pub fn an_event_has_its_path()
    ensures { read_script false
        (record {
          value = object (member (codes "event")
              (object (member (codes "kind") (boolean true) no_members))
              (member (codes "op") (string (codes "event")) no_members));
          path = [];
        })
        ≡ Err (Bad (fault_at WrongType (codes "event.kind"))) }
{}

/// A list of draws goes before a seed, an empty one too.
pub fn listed_draws_go_first()
    ensures { draws_of (Some []) (Some 7) ≡ draws.List [] }
{}

/// A line that names the main stream is one of it.
pub fn main_is_the_main_stream()
    ensures { stream_of (Some (codes "main")) ≡ Main }
{}
