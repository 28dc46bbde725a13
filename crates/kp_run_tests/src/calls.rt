//! Public calls that may be out of memory and that neither the program nor `kp_restore_echo` makes.
//! Their clauses say what they answer; here each does answer, since there is memory.
ghost use Rattle.std.specs.Prelude.{◌≡◌, ◌<◌};

use crate::lines::{config_of, op_of, whole_script};
use arrayvec::ArrayVec;
use kp_base::{
    Config, Copied, Family, Items, NoMemory, ObjectKey, PortKey, PortNo, Proto, Steps, Text,
};
use kp_category::{candidates, of_family};
use kp_chains::{fixed_chains, port_block, port_chains};
use kp_desired::desired_endpoints;
use kp_full_table::rebuild;
use kp_health::{Health, response_text};
use kp_history_defs::{DirtyPort, Fed};
use kp_json::{FieldFault, Spot, quoted_text, read_tree};
use kp_known_ports::port_infos;
use kp_print::{push, push_endpoint, push_labelled};
use kp_recent::RecentLists;
use kp_report::{
    answer_text, event_text, explain_text, final_text, live_sync_text, record_text, refusal_text,
    slices_text, sync_text, trail_text,
};
use kp_restore::batch_text;
use kp_rules::{Table, changed};
use kp_script::Op;
use kp_store::Objects;
use kp_text_defs::LineRefusal;
use kp_types::{
    ChainText, Decision, Event, Kind, Packed, Reason, ServiceSources, SyncRecord, Trail, Verdict,
};
use std::alloc::Global;
use std::marker::Brand;
use std::sync::ledger::{Blank, Ledger};
use std::test::*;

/// A configuration whose chains have no hash in their names.
const CONFIG: &str = r#"{"op":"config",@node,"nameLength":0}"#;

/// A Service of a pod on a node, and a slice of it that has no endpoint yet.
const OBJECTS: &str = r#"{"kind":"List","items":[{"kind":"Service","metadata":{"name":"web"},
 "spec":{"clusterIP":"10.96.0.10","ports":[{"port":80,"targetPort":8080}],
 "selector":{"app":"web"}}},
 {"kind":"EndpointSlice","metadata":{"name":"web-x",
 "labels":{"kubernetes.io/service-name":"web"}},"addressType":"IPv4"},
 {"kind":"Pod","metadata":{"name":"a","labels":{"app":"web"}},"spec":{"nodeName":"n1"},
 "status":{"podIP":"10.244.1.2","conditions":[{"type":"Ready","status":"True"}]}},
 {"kind":"Node","metadata":{"name":"n1"}}]}"#;

/// A list, and labels of which one is absent.
const TREE: &str = r#"{"list":[10,null],"labels":{"z":null,"b/c.d":"x","a":"y"}}"#;

/// Calls, and what each answers with `|` for a line feed. Beside `candidates` the endpoints are
/// wanted first, and beside `rebuild` stand the chains of the port with how many rules each has, the
/// port's block, and how many edits each family has.
const ANSWERS: &str = "nodes => 1
services_of_pod => 1
slices_of => 1
pods_of => 1
candidates => 10.244.1.2:8080
slices_text => slice default/web-x: IPv4, own, service web, ports -, endpoints 0|
event_text => event 2: main 1 delete Pod default/a|
response_text => HTTP/1.1 200 OK\r|Content-Type: application/json\r|Content-Length: 67\r|\r|\
{\"service\":{\"namespace\":\"default\",\"name\":\"web\"},\"localEndpoints\":1}
sync_text => sync 1: events 2, written 4, removed 0|
record_text => record 1: events 2, written 3, removed 0|
live_sync_text => sync 4: record 1|
final_text => final: record 2|
answer_text => packet 5 at 1: dropped|
explain_text => explain 5 at 1: dropped; no door decides|
trail_text => trail 5: none|
refusal_text => line 4: refused: op \"pull\" is not known|
quoted_text => \"a\\\"\\\\\\n\\u0001é\"
item => list[1] b/c.d x
split => 16
rebuild => KUBE-SVC- 2 KUBE-SEP- 2 KUBE-SERVICES 1 V4 3 V6 0 \
*nat|:KUBE-SEP- - [0:0]|:KUBE-SERVICES - [0:0]|:KUBE-SVC- - [0:0]|\
-A KUBE-SEP- -s 10.244.1.2/32 -j KUBE-MARK-MASQ|\
-A KUBE-SEP- -p tcp -j DNAT --to-destination 10.244.1.2:8080|\
-A KUBE-SERVICES -d 10.96.0.10/32 -p tcp -m tcp --dport 80 -j KUBE-SVC-|\
-A KUBE-SERVICES ! -d 127.0.0.0/8 -m addrtype --dst-type LOCAL -j KUBE-NODEPORTS|\
-A KUBE-SVC- ! -s 10.244.0.0/16 -d 10.96.0.10/32 -p tcp -m tcp --dport 80 -j KUBE-MARK-MASQ|\
-A KUBE-SVC- -j KUBE-SEP-|COMMIT|";

/// The objects.
fn objects(alloc: Global) -> Result<Objects, Fail> {
    match op_of(alloc, 2, whole_script(alloc, OBJECTS)?.as_str())? {
        Op::Events(events) => Ok(Objects::from_events(alloc, events.as_slice())?),
        _ => Err(Fail::from("events")),
    }
}

/// The key of an object.
fn key_of(alloc: Global, name: &str) -> Result<ObjectKey, NoMemory> {
    Ok(ObjectKey {
        namespace: Text::of(alloc, "default")?,
        name: Text::of(alloc, name)?,
    })
}

/// Adds a space and a word.
fn push_word(text: &mut String, word: &str) -> Result<(), NoMemory> {
    push(text, " ")?;
    push(text, word)
}

/// How many objects a look-up finds.
fn count(alloc: Global, objects: &Objects, call: &str) -> Result<usize, NoMemory> {
    let (web, pod) = (key_of(alloc, "web")?, key_of(alloc, "a")?);
    Ok(match call {
        "nodes" => objects.nodes(alloc)?.as_slice().len(),
        "services_of_pod" => objects.services_of_pod(alloc, &pod)?.as_slice().len(),
        "slices_of" => objects.slices_of(alloc, &web)?.as_slice().len(),
        _ => objects.pods_of(alloc, &web)?.as_slice().len(),
    })
}

/// Adds the endpoints of the Service's port that the controller wants.
fn push_endpoints(alloc: Global, objects: &Objects, text: &mut String) -> Result<(), Fail> {
    let object = key_of(alloc, "web")?;
    let service = objects.service(&object).ok_or("a Service")?;
    let (pods, nodes) = (objects.pods_of(alloc, &object)?, objects.nodes(alloc)?);
    let sources = ServiceSources {
        service: service.copy(alloc)?,
        wanted: desired_endpoints(alloc, service, Family::V4, &pods, &nodes)?,
        slices: Items::new(alloc),
    };
    let (port_name, proto) = (Text::of(alloc, "")?, Proto::Tcp);
    let key = PortKey {
        object,
        port_name,
        proto,
    };
    let port = DirtyPort { key, before: None }.copy(alloc)?.key;
    let node = Text::of(alloc, "n1")?;
    let both = candidates(alloc, &port, &sources.copy(alloc)?.wanted, &[], &node)?;
    for candidate in of_family(alloc, &both, Family::V4)?.as_slice() {
        push(text, " ")?;
        push_endpoint(text, &candidate.endpoint)?;
    }
    Ok(())
}

/// The lines of the Service's slices, as if they had been packed.
fn packed_text(alloc: Global, objects: &Objects) -> Result<Text, NoMemory> {
    let packed = Packed {
        slices: objects.slices_of(alloc, &key_of(alloc, "web")?)?,
        created: Items::new(alloc),
        updated: Items::new(alloc),
        deleted: Items::new(alloc),
    };
    slices_text(alloc, &packed.copy(alloc)?.slices, false)
}

/// The line of an event that deletes the pod.
fn deleted_text(alloc: Global) -> Result<Text, NoMemory> {
    let (kind, key) = (Kind::Pod, key_of(alloc, "a")?);
    let fed = Fed {
        feeder: 0,
        number: 1,
        event: Event::Delete { kind, key },
    };
    event_text(
        alloc,
        2,
        &Text::of(alloc, "main")?,
        1,
        &fed.copy(alloc)?.event,
    )
}

/// What a health port answers of the Service.
fn health_text(alloc: Global) -> Result<Text, Fail> {
    let health = Health {
        service: key_of(alloc, "web")?,
        port: PortNo::new(31000).ok_or("a port")?,
        status: 200,
        count: 1,
    };
    Ok(response_text(alloc, &health)?)
}

/// The line that a call prints.
fn line_of(alloc: Global, call: &str) -> Result<Text, NoMemory> {
    let verdict = Verdict::Dropped;
    match call {
        "sync_text" => sync_text(alloc, 1, 2, 4, 0),
        "record_text" => record_text(alloc, 1, 2, 3, 0),
        "live_sync_text" => live_sync_text(alloc, 4, 1),
        "final_text" => final_text(alloc, 2, None),
        "answer_text" => answer_text(alloc, 5, 1, &verdict),
        "explain_text" => {
            let reason = Reason::NoDoor;
            explain_text(alloc, 5, 1, &Decision { verdict, reason })
        }
        "trail_text" => {
            let passes = ArrayVec::new();
            trail_text(alloc, 5, &Trail { passes })
        }
        _ => {
            let op = Text::of(alloc, "pull")?;
            refusal_text(alloc, 4, &LineRefusal::UnknownOp { op })
        }
    }
}

/// Adds the path of a list's second element, and the name and the text of the second member of an
/// object, if they are there.
fn push_second<'a>(
    alloc: Global,
    list: &'a Spot<'a>,
    labels: &'a Spot<'a>,
    text: &mut String,
) -> Result<(), FieldFault> {
    if list.list_len(alloc)? < 2 || labels.member_len(alloc)? < 2 {
        return Ok(());
    }
    let path = list.item(alloc, 1)?.path(alloc)?;
    push_word(text, path.copy(alloc)?.as_str())?;
    let (name, member) = labels.member(alloc, 1)?;
    push_word(text, name.as_str())?;
    Ok(push_word(text, member.text_at(alloc)?.as_str())?)
}

/// Adds these of a tree.
fn push_spots<'a>(alloc: Global, root: &'a Spot<'a>, text: &mut String) -> Result<(), FieldFault> {
    let list = root.needed(alloc, "list")?;
    let labels = root.needed(alloc, "labels")?;
    push_second(alloc, &list, &labels, text)
}

/// Adds the names of chains that have rules, each with how many.
fn push_chains(text: &mut String, chains: &[ChainText]) -> Result<(), NoMemory> {
    for chain in chains {
        let rules = chain.rules.as_slice().len() as u64;
        if rules != 0 {
            push_word(text, chain.at.chain.as_str())?;
            push_labelled(text, " ", rules)?;
        }
    }
    Ok(())
}

/// Adds the edits that lead from the table of no objects to this one.
fn push_edits(alloc: Global, table: &Table, text: &mut String) -> Result<(), NoMemory> {
    let before = fixed_chains(alloc, &[Family::V4])?;
    let record = SyncRecord {
        sync: 1,
        events: 2,
        batch: changed(alloc, &before, table)?,
    };
    let batch = record.copy(alloc)?.batch;
    let four = batch.of_family(alloc, Family::V4)?;
    let six = batch.of_family(alloc, Family::V6)?;
    push_labelled(text, " V4 ", four.edits.as_slice().len() as u64)?;
    push_labelled(text, " V6 ", six.edits.as_slice().len() as u64)?;
    push_word(text, batch_text(alloc, &batch)?.as_str())
}

/// Adds the chains and the block of the first port, and the edits to the full table.
fn push_table<L: Ledger, A: Ledger>(
    alloc: Global,
    rules: Blank,
    ports: Blank,
    config: &Config,
    objects: &Objects,
    text: &mut String,
) -> Result<(), Fail>
    requires rules_name { rules.name ≡ L.name }
    requires rules_parts { rules.parts ≡ L.parts }
    requires some_rules { 0 < rules.parts }
    requires ports_name { ports.name ≡ A.name }
    requires ports_parts { ports.parts ≡ A.parts }
    requires some_ports { 0 < ports.parts }
{
    let mut steps = Steps::<L>::new(rules);
    let mut asked = Steps::<A>::new(ports);
    let four = Family::V4;
    let infos = port_infos(alloc, four, objects, config, &mut asked)?;
    let info = infos.first().ok_or("a port")?;
    let service = objects.service(&info.key.object).ok_or("a Service")?;
    let port = service.ports.as_slice().first().ok_or("a port")?;
    let chains = port_chains(alloc, four, service, port, &info.lists, config, &mut steps)?;
    push_chains(text, chains.as_slice())?;
    let block = port_block(alloc, four, service, port, &info.lists, config, &mut steps)?;
    push_chains(text, block.as_slice())?;
    let table = rebuild(alloc, objects, config, &mut steps, &mut asked);
    Ok(push_edits(alloc, &table.ok().ok_or("a table")?, text)?)
}

/// What a call answers, with a space before each part.
fn answer(alloc: Global, objects: &Objects, call: &str) -> Result<String, Fail> {
    let mut text = String::new(alloc);
    match call {
        "candidates" => push_endpoints(alloc, objects, &mut text)?,
        "slices_text" => push_word(&mut text, packed_text(alloc, objects)?.as_str())?,
        "event_text" => push_word(&mut text, deleted_text(alloc)?.as_str())?,
        "response_text" => push_word(&mut text, health_text(alloc)?.as_str())?,
        "quoted_text" => push_word(&mut text, quoted_text(alloc, "a\"\\\n\u{1}é")?.as_str())?,
        "item" => push_spots(alloc, &read_tree(alloc, TREE.as_bytes())?.root(), &mut text)?,
        "split" => {
            let lists = RecentLists::new(alloc, 2)?.split()?;
            push_labelled(&mut text, " ", lists.as_slice().len() as u64)?;
        }
        "rebuild" => {
            let config = config_of(alloc, whole_script(alloc, CONFIG)?.as_str())?;
            let (rules, ports) = (Blank::new(1), Blank::new(1));
            push_table::<Brand, Brand>(alloc, rules, ports, &config, objects, &mut text)?;
        }
        _ if call.ends_with("_text") => push_word(&mut text, line_of(alloc, call)?.as_str())?,
        _ => push_labelled(&mut text, " ", count(alloc, objects, call)? as u64)?,
    }
    Ok(text)
}

#[test]
fn calls_that_no_run_makes_answer(rt: HostRuntime) -> Result<(), Fail> {
    let objects = objects(rt.alloc())?;
    for row in ANSWERS.lines() {
        let (call, wanted) = row.split_once(" =>").ok_or("a row")?;
        let text = answer(rt.alloc(), &objects, call)?.replace(rt.alloc(), "\n", "|")?;
        assert_eq!(rt; text.as_str(), wanted, "{call}");
    }
    Ok(())
}
