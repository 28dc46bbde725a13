//! Texts with the values that people read in them.
ghost use Rattle.std.specs.Prelude.{
  ◌≡◌,
  true,
  false,
  [],
  ◌∷◌,
  codes,
  not,
  Some,
  None,
  is_none,
  replicate,
};
ghost use Rattle.std.specs.List.{list_all, list_any};
ghost use Rattle.kp_base.specs.Dotted.{address_of, range_of, split_once};
ghost use Rattle.kp_base.specs.Net.{v4_address, range_contains, single_range};
ghost use Rattle.kp_base.specs.Grammar.{is_name_text, is_port_name_text, is_label_text};
ghost use Rattle.kp_types.specs.Chains.{is_chain_name};
ghost use Rattle.kp_worked_texts.specs.SixTexts as six;

/// Texts that are addresses, and texts that are none.
pub fn worked_addresses()
    ensures first { address_of (codes "10.0.0.1") ≡ Some (v4_address 167772161) }
    ensures second { address_of (codes "192.168.1.254") ≡ Some (v4_address 3232236030) }
    ensures third { address_of (codes "192.168.1.77") ≡ Some (v4_address 3232235853) }
    ensures least { address_of (codes "0.0.0.0") ≡ Some (v4_address 0) }
    ensures greatest { address_of (codes "255.255.255.255") ≡ Some (v4_address 4294967295) }
    ensures others { list_all (λ text. is_none (address_of text))
        ([] ∷ codes "256.0.0.1" ∷ codes "192.168.1.256" ∷ codes "1.2.3.999999999999"
        ∷ codes "1.2.3" ∷ codes "1.2.3.4.5" ∷ codes "..." ∷ codes "1..2.3" ∷ codes ".1.2.3"
        ∷ codes "1.2.3." ∷ codes "01.2.3.4" ∷ codes "1.2.3.00" ∷ codes "1.2.3.04"
        ∷ codes " 1.2.3.4" ∷ codes "1.2.3.4 " ∷ codes "+1.2.3.4" ∷ codes "0x1.2.3.4"
        ∷ codes "1.2.3.a" ∷ codes "1.2.3.4/32" ∷ []) ≡ true }
{}

/// Texts that are ranges, texts that are none, and what ranges hold.
pub fn worked_ranges()
    ensures cleared { range_of (codes "10.0.0.1/8")
        ≡ Some (record { base = v4_address 167772160; bits = 8 }) }
    ensures all { range_of (codes "255.255.255.255/0")
        ≡ Some (record { base = v4_address 0; bits = 0 }) }
    ensures some { range_of (codes "192.168.1.77/26")
        ≡ Some (record { base = v4_address 3232235840; bits = 26 }) }
    ensures one { range_of (codes "10.1.2.3/32")
        ≡ Some (record { base = v4_address 167838211; bits = 32 }) }
    ensures others { list_all (λ text. is_none (range_of text))
        ([] ∷ codes "10.0.0.0/33" ∷ codes "10.0.0.0/08" ∷ codes "10.0.0.0/-1" ∷ codes "10.0.0.0/256"
        ∷ codes "10.0.0.0" ∷ codes "10.0.0.0/" ∷ codes "/8" ∷ codes "10.0.0.0/8/8"
        ∷ codes "10.0.0/8" ∷ codes "10.0.0.0/ 8" ∷ []) ≡ true }
    ensures inside { list_all (λ number.
        range_contains (record { base = v4_address 3232235840; bits = 26 }) (v4_address number))
        (3232235840 ∷ 3232235853 ∷ 3232235903 ∷ []) ≡ true }
    ensures outside { list_any (λ number.
        range_contains (record { base = v4_address 3232235840; bits = 26 }) (v4_address number))
        (3232235839 ∷ 3232235904 ∷ []) ≡ false }
    ensures alone { range_contains (single_range (v4_address 3232235840)) (v4_address 3232235853)
        ≡ false }
{}

/// Texts of IPv6 addresses and ranges, how addresses are printed, and texts that are none.
pub fn worked_six_texts()
    ensures printed { six.Printed }
    ensures tails { six.Tails }
    ensures numbers { six.Numbers }
    ensures no_addresses { six.NoAddresses }
    ensures ranges { six.Ranges }
    ensures no_ranges { six.NoRanges }
{}

/// Texts that name objects, and texts that don't.
pub fn worked_names()
    ensures names { list_all is_name_text
        (codes "web" ∷ codes "a" ∷ codes "0" ∷ codes "web-1.example" ∷ codes "a..b" ∷ []) ≡ true }
    ensures others { list_all (λ text. not (is_name_text text))
        ([] ∷ codes "-web" ∷ codes "web-" ∷ codes ".web" ∷ codes "web." ∷ codes "Web" ∷ codes "we_b"
        ∷ codes "we b" ∷ codes "we/b" ∷ codes "we:b" ∷ codes "we{b" ∷ codes "we`b" ∷ []) ≡ true }
    ensures longest { is_name_text (replicate 253 97) ≡ true }
    ensures longer { is_name_text (replicate 254 97) ≡ false }
{}

/// Texts that name ports, and texts that don't.
pub fn worked_port_names()
    ensures names { list_all is_port_name_text
        ([] ∷ codes "http" ∷ codes "-" ∷ codes "8080-tcp" ∷ []) ≡ true }
    ensures others { list_all (λ text. not (is_port_name_text text))
        (codes "http.1" ∷ codes "HTTP" ∷ codes "http_1" ∷ []) ≡ true }
    ensures longest { is_port_name_text (replicate 63 97) ≡ true }
    ensures longer { is_port_name_text (replicate 64 97) ≡ false }
{}

/// Texts that are values of labels, and texts that are none.
pub fn worked_label_values()
    ensures values { list_all is_label_text
        (codes "web" ∷ codes "Web_1.x-Z" ∷ codes "_" ∷ codes "." ∷ []) ≡ true }
    ensures others { list_all (λ text. not (is_label_text text))
        ([] ∷ codes "a b" ∷ codes "a/b" ∷ codes "a@b" ∷ codes "a[b" ∷ []) ≡ true }
    ensures longest { is_label_text (replicate 63 65) ≡ true }
    ensures longer { is_label_text (replicate 64 65) ≡ false }
{}

/// Texts that name chains, and texts that don't.
pub fn worked_chain_names()
    ensures names { list_all is_chain_name
        (codes "a" ∷ codes "0" ∷ codes "-" ∷ codes "KUBE-SVC-ABCDEFGHIJKLMNOPQRS" ∷ codes "DROPPED"
        ∷ codes "drop" ∷ []) ≡ true }
    ensures others { list_all (λ text. not (is_chain_name text))
        ([] ∷ codes "KUBE-SVC-ABCDEFGHIJKLMNOPQRST" ∷ codes "KUBE.SVC" ∷ codes "KUBE SVC"
        ∷ codes "KUBE_SVC" ∷ codes "RETURN" ∷ codes "ACCEPT" ∷ codes "DROP" ∷ codes "REJECT"
        ∷ codes "MARK" ∷ codes "DNAT" ∷ codes "MASQUERADE" ∷ (75 ∷ 255 ∷ []) ∷ []) ≡ true }
{}

/// Texts that the first equals sign cuts, and one that it doesn't.
pub fn worked_cuts()
    ensures first { split_once 61 (codes "a=b=c") ≡ Some (codes "a", codes "b=c") }
    ensures alone { split_once 61 (codes "=") ≡ Some ([], []) }
    ensures whole { split_once 61 (codes "app") ≡ None }
{}
