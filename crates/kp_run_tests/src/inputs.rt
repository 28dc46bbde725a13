//! Worked inputs, with what each line prints behind it. A line that begins with a space goes on
//! with the line before.
use crate::lines::{push_line, unfolded};
use std::alloc::Global;
use std::test::Fail;

/// A worked input, up to some line, and what its replay prints.
#[derive(Drop)]
pub(crate) struct Case {
    pub(crate) input: String,
    pub(crate) printed: String,
}

/// The first lines of a worked input, so many, with what they print.
pub(crate) fn case_of(alloc: Global, rows: &str, most: u64) -> Result<Case, Fail> {
    let mut input = String::new(alloc);
    let mut printed = String::new(alloc);
    let mut number = 0u64;
    for row in unfolded(alloc, rows)?.lines() {
        let text = match row.strip_prefix("=> ") {
            Some(_) => &mut printed,
            None => {
                number = number.saturating_add(1);
                &mut input
            }
        };
        if number <= most {
            push_line(text, row.strip_prefix("=> ").unwrap_or(row))?;
        }
    }
    Ok(Case { input, printed })
}

/// Three endpoints of a Service, one for each draw.
pub(crate) const ENDPOINTS: &str = r#"{"op":"config","node":"n1","nodeAddresses":["10.0.0.1"],
 "clusterCIDR":"10.244.0.0/16"}
{"apiVersion":"v1","kind":"Service","metadata":{"name":"web"},
 "spec":{"clusterIP":"10.96.0.10","ports":[{"port":80,"targetPort":8080}]}}
{"apiVersion":"discovery.k8s.io/v1","kind":"EndpointSlice",
 "metadata":{"name":"web-x","labels":{"kubernetes.io/service-name":"web"}},"addressType":"IPv4",
 "ports":[{"port":8080}],"endpoints":[{"addresses":["10.244.1.2"],"nodeName":"n1"},
 {"addresses":["10.244.2.3"],"nodeName":"n2"},{"addresses":["10.244.3.4"],"nodeName":"n3"}]}
{"op":"sync"}
=> sync 1: events 2, written 5, removed 0
{"op":"packet","src":"10.244.9.9","dst":"10.96.0.10","dport":80,"draws":[715827882]}
=> packet 5 at 1: to 10.244.1.2:8080
{"op":"packet","src":"10.244.9.9","dst":"10.96.0.10","dport":80,"draws":[715827883,1073741823]}
=> packet 6 at 1: to 10.244.2.3:8080
{"op":"packet","src":"10.244.9.9","dst":"10.96.0.10","dport":80,"draws":[715827883,1073741824]}
=> packet 7 at 1: to 10.244.3.4:8080"#;

/// Two endpoints whose chains have one name: syncs of them are refused, and their events stay.
pub(crate) const CLASHES: &str = r#"{"op":"config","node":"n1","nodeAddresses":["10.0.0.1"],
 "clusterCIDR":"10.244.0.0/16","nameLength":0}
{"apiVersion":"v1","kind":"Service","metadata":{"name":"web"},
 "spec":{"clusterIP":"10.96.0.10","ports":[{"port":80,"targetPort":8080}]}}
{"apiVersion":"discovery.k8s.io/v1","kind":"EndpointSlice",
 "metadata":{"name":"web-x","labels":{"kubernetes.io/service-name":"web"}},"addressType":"IPv4",
 "ports":[{"port":8080}],"endpoints":[{"addresses":["10.244.1.2"],"nodeName":"n1"},
 {"addresses":["10.244.2.3"],"nodeName":"n2"}]}
{"op":"sync"}
=> line 4: refused: chain name KUBE-SEP- of default/web/TCP 10.244.1.2:8080 and of
  default/web/TCP 10.244.2.3:8080
{"apiVersion":"discovery.k8s.io/v1","kind":"EndpointSlice",
 "metadata":{"name":"web-x","labels":{"kubernetes.io/service-name":"web"}},"addressType":"IPv4",
 "ports":[{"port":8080}],"endpoints":[{"addresses":["10.244.1.2"],"nodeName":"n1"}]}
{"op":"sync"}
=> sync 1: events 3, written 3, removed 0
{"apiVersion":"discovery.k8s.io/v1","kind":"EndpointSlice",
 "metadata":{"name":"web-x","labels":{"kubernetes.io/service-name":"web"}},"addressType":"IPv4",
 "ports":[{"port":8080}],"endpoints":[{"addresses":["10.244.1.2"],"nodeName":"n1"},
 {"addresses":["10.244.2.3"],"nodeName":"n2"}]}
{"op":"sync"}
=> line 8: refused: chain name KUBE-SEP- of default/web/TCP 10.244.1.2:8080 and of
  default/web/TCP 10.244.2.3:8080
{"op":"packet","src":"10.244.9.9","dst":"10.96.0.10","dport":80,"draws":[]}
=> packet 9 at 1: to 10.244.1.2:8080"#;

/// A live run of one stream, whose last sync is refused, and all that it prints: no record is made,
/// and the tables are those of no objects.
pub(crate) const LIVE: &str = r#"{"op":"config","node":"n1","nodeAddresses":["10.0.0.1"],
 "clusterCIDR":"10.244.0.0/16","nameLength":0}
{"apiVersion":"v1","kind":"Service","metadata":{"name":"web"},
 "spec":{"clusterIP":"10.96.0.10","ports":[{"port":80,"targetPort":8080}]}}
{"apiVersion":"discovery.k8s.io/v1","kind":"EndpointSlice",
 "metadata":{"name":"web-x","labels":{"kubernetes.io/service-name":"web"}},"addressType":"IPv4",
 "ports":[{"port":8080}],"endpoints":[{"addresses":["10.244.1.2"],"nodeName":"n1"},
 {"addresses":["10.244.2.3"],"nodeName":"n2"}]}
=> event 1: main 1 apply Service default/web
=> event 2: main 2 apply EndpointSlice default/web-x
=> final: refused: chain name KUBE-SEP- of default/web/TCP 10.244.1.2:8080 and of
  default/web/TCP 10.244.2.3:8080
=> *nat
=> :PREROUTING ACCEPT [0:0]
=> :INPUT ACCEPT [0:0]
=> :OUTPUT ACCEPT [0:0]
=> :POSTROUTING ACCEPT [0:0]
=> :KUBE-MARK-MASQ - [0:0]
=> :KUBE-NODEPORTS - [0:0]
=> :KUBE-POSTROUTING - [0:0]
=> :KUBE-SERVICES - [0:0]
=> -A PREROUTING -j KUBE-SERVICES
=> -A OUTPUT -j KUBE-SERVICES
=> -A POSTROUTING -j KUBE-POSTROUTING
=> -A KUBE-MARK-MASQ -j MARK --or-mark 0x4000
=> -A KUBE-POSTROUTING -m mark ! --mark 0x4000/0x4000 -j RETURN
=> -A KUBE-POSTROUTING -j MARK --xor-mark 0x4000
=> -A KUBE-POSTROUTING -j MASQUERADE
=> -A KUBE-SERVICES ! -d 127.0.0.0/8 -m addrtype --dst-type LOCAL -j KUBE-NODEPORTS
=> COMMIT
=> *filter
=> :INPUT ACCEPT [0:0]
=> :FORWARD ACCEPT [0:0]
=> :OUTPUT ACCEPT [0:0]
=> :KUBE-EXTERNAL-SERVICES - [0:0]
=> :KUBE-FORWARD - [0:0]
=> :KUBE-PROXY-FIREWALL - [0:0]
=> :KUBE-SERVICES - [0:0]
=> -A INPUT -j KUBE-PROXY-FIREWALL
=> -A INPUT -j KUBE-EXTERNAL-SERVICES
=> -A FORWARD -j KUBE-PROXY-FIREWALL
=> -A FORWARD -j KUBE-EXTERNAL-SERVICES
=> -A FORWARD -j KUBE-SERVICES
=> -A FORWARD -j KUBE-FORWARD
=> -A OUTPUT -j KUBE-PROXY-FIREWALL
=> -A OUTPUT -j KUBE-SERVICES
=> -A KUBE-FORWARD -m mark --mark 0x4000/0x4000 -j ACCEPT
=> COMMIT"#;
