//! Worked examples of forms.
ghost use Rattle.std.specs.Prelude.{◌≡◌, List, ℕ, [], ◌∷◌, codes, true, false, None, Some};
ghost use Rattle.serde_json.specs.Data.{string, object, no_members, member};
ghost use Rattle.kp_json.specs.Answers.{fault_at};
ghost use Rattle.kp_json.specs.declared.fault.Why.TheVariants.{BadAddress, BadName, BadCidr};
ghost use Rattle.kp_row_defs.specs.Rows.{done, ◌▸◌, optional, address_text, address_like, cluster_address_text, range_text, ranges_text, port_name_text, filled_port_name_text, field_fault, form_fault, is_ranges_text, rows_fault};

/// Addresses, ranges and cluster addresses of objects are those of both families.
pub fn both_families_are_read()
    ensures address { form_fault address_text
        (record { value = string (codes "fd00::1"); path = codes "ip" }) ≡ None }
    ensures range { form_fault range_text
        (record { value = string (codes "fd00::/8"); path = codes "ip" }) ≡ None }
    ensures cluster { form_fault cluster_address_text
        (record { value = string (codes "fd00::6"); path = codes "ip" }) ≡ None }
    ensures zone { form_fault address_text
        (record { value = string (codes "fe80::1%eth0"); path = codes "ip" })
        ≡ Some (fault_at BadAddress (codes "ip")) }
    ensures length { form_fault range_text
        (record { value = string (codes "fd00::/129"); path = codes "ip" })
        ≡ Some (fault_at BadCidr (codes "ip")) }
{}

/// One range, or one of each family with one comma between them.
pub fn a_range_of_each_family()
    ensures one { is_ranges_text (codes "fd00:10:244::/56") ≡ true }
    ensures two { is_ranges_text (codes "10.244.0.0/16,fd00:10:244::/56") ≡ true }
    ensures turned { is_ranges_text (codes "fd00:10:244::/56,10.244.0.0/16") ≡ true }
    ensures twice { is_ranges_text (codes "10.244.0.0/16,10.96.0.0/16") ≡ false }
    ensures blank { is_ranges_text (codes "10.244.0.0/16, fd00::/56") ≡ false }
    ensures comma { is_ranges_text (codes "10.244.0.0/16,") ≡ false }
    ensures fault { form_fault ranges_text
        (record { value = string (codes "10.244.0.0/16,fd00::/56,"); path = codes "clusterCIDR" })
        ≡ Some (fault_at BadCidr (codes "clusterCIDR")) }
{}

/// Two addresses of one family, and one of another family than the first.
pub fn an_address_of_another_family()
    ensures like { rows_fault (address_like (codes "dst") (codes "src") ▸ done)
        (record {
          value = object (member (codes "dst") (string (codes "fd00::2"))
              (member (codes "src") (string (codes "fd00::1")) no_members));
          path = [];
        })
        ≡ None }
    ensures other { rows_fault (address_like (codes "dst") (codes "src") ▸ done)
        (record {
          value = object (member (codes "dst") (string (codes "10.0.0.1"))
              (member (codes "src") (string (codes "fd00::1")) no_members));
          path = [];
        })
        ≡ Some (fault_at BadAddress (codes "dst")) }
{}

/// An empty port name counts as absent in an object.
pub fn empty_text_is_absent()
    ensures { field_fault (codes "name") optional port_name_text
        (record { value = object (member (codes "name") (string []) no_members); path = [] })
        ≡ None }
{}

/// Where a name may not be empty, the empty text is a bad name.
pub fn empty_text_is_refused()
    ensures { field_fault (codes "by") optional filled_port_name_text
        (record { value = object (member (codes "by") (string []) no_members); path = [] })
        ≡ Some (fault_at BadName (codes "by")) }
{}
