//! What the objects of each kind are found by.
ghost use Rattle.std.specs.Prelude.{◌≡◌, ◌++◌, cond, map, IfOk, OnOk, option_map};
ghost use Rattle.std.specs.Option.{option_to_list};
ghost use Rattle.kp_store.specs.Destinations.{cluster_addresses};
ghost use Rattle.kp_store.specs.Tags as spec;
ghost use Rattle.kp_store.specs.declared.tags.PodTag.TheVariants.{On};
ghost use Rattle.kp_store.specs.declared.tags.ServiceTag.TheVariants.{Selector, Prefix};

use crate::indexed::Tagged;
use crate::numbers::{joined, numbers_of, start_of};
use kp_base::{Address, Copied, Family, Items, NoMemory, ObjectKey, Pair, PortNo, Proto, Text};
use kp_port_info::{balancer_of, external_of};
use kp_types::{ClusterAddress, Pod, Service, ServicePort, Slice};
use std::alloc::Global;

/// A label in a namespace.
#[derive(PartialEq, Eq, Hash)]
pub struct Label {
    pub namespace: Text,
    pub key: Text,
    pub value: Text,
}

impl Drop for Label {
    fn drop(self) {
        let Label {
            namespace,
            key,
            value,
        } = self;
    }
}

/// What a pod is found by.
#[derive(PartialEq, Eq, Hash)]
pub enum PodTag {
    /// One of its labels.
    Labelled(Label),
    /// The name of its node.
    On(Text),
}

impl Drop for PodTag {
    fn drop(self) {
        match self {
            PodTag::Labelled(_) => {}
            PodTag::On(_) => {}
        }
    }
}

/// What a Service is found by. The numbers of its selector's pairs, in their order, are a path: its
/// selector is the whole path, and all the paths that it begins with are prefixes.
#[derive(Clone, Copy, PartialEq, Eq, Hash)]
pub enum ServiceTag {
    /// The path of its selector.
    Selector(u64),
    /// A path that its selector goes on from.
    Prefix(u64),
    /// An address and the number of a port.
    At(Address, PortNo, Proto),
    /// A node port.
    NodePort(PortNo, Proto),
}

impl Copied for Label {
    fn copy(&self, alloc: Global) -> Result<Label, NoMemory> {
        Ok(Label {
            namespace: self.namespace.copy(alloc)?,
            key: self.key.copy(alloc)?,
            value: self.value.copy(alloc)?,
        })
    }
}

impl Copied for PodTag {
    fn copy(&self, alloc: Global) -> Result<PodTag, NoMemory> {
        match self {
            PodTag::Labelled(label) => Ok(PodTag::Labelled(label.copy(alloc)?)),
            PodTag::On(node) => Ok(PodTag::On(node.copy(alloc)?)),
        }
    }
}

impl Copied for ServiceTag {
    fn copy(&self, _alloc: Global) -> Result<ServiceTag, NoMemory> {
        Ok(*self)
    }
}

/// A slice is found by the Service that its label names.
impl Tagged<ObjectKey> for Slice {
    ghost use Rattle.kp_store.specs.Tags.{owners_of};

    ghost tags = { owners_of };

    fn tags(&self, alloc: Global) -> Result<Items<ObjectKey>, NoMemory> {
        match &self.service {
            Some(name) => {
                let namespace = self.key.namespace.copy(alloc)?;
                let name = name.copy(alloc)?;
                let mut owners = Vec::with_capacity(alloc, 1)?;
                owners.push(ObjectKey { namespace, name })?;
                Ok(Items::from_vec(owners))
            }
            None => Ok(Items::new(alloc)),
        }
    }
}

/// A pod is found by each of its labels, and by its node.
impl Tagged<PodTag> for Pod {
    ghost use Rattle.kp_store.specs.Tags.{tags_of_pod};

    ghost tags = { tags_of_pod };

    fn tags(&self, alloc: Global) -> Result<Items<PodTag>, NoMemory> {
        let count = self.labels.as_slice().len().saturating_add(1);
        let mut tags = Vec::with_capacity(alloc, count)?;
        for pair in self.labels.as_slice() {
            tags.push(label_tag(alloc, &self.key.namespace, pair)?)?;
        }
        add_tag_of_node(alloc, &mut tags, self)?;
        Ok(Items::from_vec(tags))
    }
}

/// A Service is found by its selector, by each address and number that its ports have, and by its node
/// ports.
impl Tagged<ServiceTag> for Service {
    ghost use Rattle.kp_store.specs.Tags.{tags_of};

    ghost tags = { tags_of };

    fn tags(&self, alloc: Global) -> Result<Items<ServiceTag>, NoMemory> {
        let mut tags = Vec::new(alloc);
        add_selector_tags(alloc, &mut tags, self)?;
        for port in self.ports.as_slice() {
            add_tags_of_port(&mut tags, self, port)?;
        }
        Ok(Items::from_vec(tags))
    }
}

/// A label in a namespace.
fn label_in(alloc: Global, namespace: &Text, pair: &Pair) -> Result<Label, NoMemory>
    ensures { IfOk result (λ l. l ≡ spec.label_in namespace.now pair.now) }
{
    Ok(Label {
        namespace: namespace.copy(alloc)?,
        key: pair.key.copy(alloc)?,
        value: pair.value.copy(alloc)?,
    })
}

/// The tag of a pod with a pair among its labels.
pub fn label_tag(alloc: Global, namespace: &Text, pair: &Pair) -> Result<PodTag, NoMemory>
    ensures { IfOk result (λ t. t ≡ spec.label_tag namespace.now pair.now) }
{
    Ok(PodTag::Labelled(label_in(alloc, namespace, pair)?))
}

/// Adds the tag of a pod's node, if it has one.
fn add_tag_of_node(alloc: Global, tags: &mut Vec<PodTag>, pod: &Pod) -> Result<(), NoMemory>
    ensures { OnOk result (tags.new.items
        ≡ tags.old.items ++ option_to_list (option_map On pod.now.node)) }
{
    if let Some(node) = &pod.node {
        tags.push(PodTag::On(node.copy(alloc)?))?;
    }
    Ok(())
}

/// Adds the tags of a Service's selector.
fn add_selector_tags(
    alloc: Global,
    tags: &mut Vec<ServiceTag>,
    service: &Service,
) -> Result<(), NoMemory>
    ensures { OnOk result (tags.new.items ≡ tags.old.items ++ spec.selector_tags service.now) }
{
    let numbers = numbers_of(alloc, service.selector.as_slice())?;
    add_path_tags(tags, start_of(&service.key.namespace), numbers.as_slice())
}

/// Adds the tags of a path that goes on with numbers.
fn add_path_tags(tags: &mut Vec<ServiceTag>, start: u64, numbers: &[u64]) -> Result<(), NoMemory>
    ensures { OnOk result (tags.new.items ≡ tags.old.items ++ spec.path_tags start numbers.now) }
{
    let mut at = start;
    for place in 0..numbers.len() {
        at = joined(at, numbers[place]);
        let is_last = place + 1 == numbers.len();
        tags.push(path_tag(is_last, at))?;
    }
    Ok(())
}

/// The tag of a path: a selector where it is the last.
fn path_tag(is_last: bool, at: u64) -> ServiceTag
    ensures { result ≡ cond is_last (Selector at) (Prefix at) }
{
    if is_last {
        ServiceTag::Selector(at)
    } else {
        ServiceTag::Prefix(at)
    }
}

/// Adds the tags of a port of a Service.
fn add_tags_of_port(
    tags: &mut Vec<ServiceTag>,
    service: &Service,
    port: &ServicePort,
) -> Result<(), NoMemory>
    ensures { OnOk result (tags.new.items
        ≡ tags.old.items ++ spec.tags_of_port service.now port.now) }
{
    add_tags_in(tags, Family::V4, service, port)?;
    add_tags_in(tags, Family::V6, service, port)?;
    add_node_tag(tags, port)
}

/// Adds the tags of a port at the addresses that its Service gives for a family.
fn add_tags_in(
    tags: &mut Vec<ServiceTag>,
    family: Family,
    service: &Service,
    port: &ServicePort,
) -> Result<(), NoMemory>
    ensures { OnOk result (tags.new.items
        ≡ tags.old.items ++ spec.tags_in family service.now port.now) }
{
    add_cluster_tag(tags, family, service, port)?;
    add_tags_at(tags, port, external_of(family, service))?;
    add_tags_at(tags, port, balancer_of(family, service))
}

/// Adds the tag of a port at its cluster address in a family, if it has one.
fn add_cluster_tag(
    tags: &mut Vec<ServiceTag>,
    family: Family,
    service: &Service,
    port: &ServicePort,
) -> Result<(), NoMemory>
    ensures { OnOk result (tags.new.items ≡ tags.old.items
        ++ map (spec.tag_at port.now) (cluster_addresses family service.now)) }
{
    match (family, service.cluster, service.six.cluster) {
        (Family::V4, ClusterAddress::At(address), _) | (Family::V6, _, Some(address)) => {
            Ok(tags.push(ServiceTag::At(address, port.port, port.proto))?)
        }
        _ => Ok(()),
    }
}

/// Adds the tag of a node port, if there is one.
fn add_node_tag(tags: &mut Vec<ServiceTag>, port: &ServicePort) -> Result<(), NoMemory>
    ensures { OnOk result (tags.new.items ≡ tags.old.items
        ++ option_to_list (option_map (spec.node_tag port.now) port.now.node_port)) }
{
    if let Some(number) = port.node_port {
        tags.push(ServiceTag::NodePort(number, port.proto))?;
    }
    Ok(())
}

/// Adds the tags of a port at some addresses.
fn add_tags_at(
    tags: &mut Vec<ServiceTag>,
    port: &ServicePort,
    addresses: &[Address],
) -> Result<(), NoMemory>
    ensures { OnOk result (tags.new.items
        ≡ tags.old.items ++ map (spec.tag_at port.now) addresses.now) }
{
    for address in addresses {
        tags.push(ServiceTag::At(*address, port.port, port.proto))?;
    }
    Ok(())
}
