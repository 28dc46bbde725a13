//! The objects of the cluster.
ghost use Rattle.std.specs.Prelude.{◌≡◌, ◌≤◌, ◌-◌, false, length, map, IfOk, IsOk, OnOk, OnErr, option_copied};
ghost use Rattle.std.specs.List.{filter};
ghost use Rattle.std.specs.FinMap as finite;
ghost use Rattle.kp_object_defs.specs.Desired.{selects};
ghost use Rattle.kp_object_defs.specs.Entries as entries;
ghost use Rattle.kp_object_defs.specs.Objects as objects;
ghost use Rattle.kp_object_defs.specs.Objects.{no_objects, objects_step, objects_after};
ghost use Rattle.kp_object_defs.specs.Objects.{with_object, without_object};
ghost use Rattle.kp_object_defs.specs.OwnKeys.{AreUnderOwnKeys};
ghost use Rattle.kp_store.specs.Destinations.{answers};
ghost use Rattle.kp_store.specs.LookUps as find;
ghost use Rattle.kp_store.specs.Rarest.{IsRarest};
ghost use Rattle.kp_store.specs.Unchanged.{DeletesNothing, is_there};

use crate::hashed::Hashed;
use crate::indexed::Indexed;
use crate::selecting::selecting;
use crate::selections::{copies, pods_selected, services_answering};
use crate::tags::{PodTag, ServiceTag, label_tag};
use kp_base::{Address, Copied, Items, NoMemory, ObjectKey, PortNo, Proto, Text};
use kp_types::{Event, Kind, Node, Object, Pod, Service, Slice};
use std::alloc::Global;
use std::marker::Model;

/// The objects of the cluster after events, which contracts see as four finite maps.
pub struct Objects {
    services: Indexed<Service, ServiceTag>,
    slices: Indexed<Slice, ObjectKey>,
    pods: Indexed<Pod, PodTag>,
    nodes: Hashed<Text, Node>,
}

impl Drop for Objects {
    fn drop(self) {
        let Objects {
            services,
            slices,
            pods,
            nodes,
        } = self;
    }
}

impl Model for Objects {
    ghost use Rattle.kp_object_defs.specs.Objects as objects;
    ghost use Rattle.kp_object_defs.specs.OwnKeys.{AreUnderOwnKeys};
    ghost use Rattle.kp_store.specs.Stored.{objects_code};

    ghost Value = { objects.Objects };

    ghost coded = { objects_code };

    ghost view = { λ o. record {
      services = o.services;
      slices = o.slices;
      pods = o.pods;
      nodes = o.nodes;
    } };

    ghost invariant = { λ o. AreUnderOwnKeys (record {
      services = o.services;
      slices = o.slices;
      pods = o.pods;
      nodes = o.nodes;
    }) };
}

impl Objects {
    /// No objects.
    pub fn new(alloc: Global) -> Objects
        ensures { result ≡ no_objects }
    {
        Objects {
            services: Indexed::new(alloc),
            slices: Indexed::new(alloc),
            pods: Indexed::new(alloc),
            nodes: Hashed::new(alloc),
        }
    }

    /// The objects after events, the first event first.
    pub fn from_events(alloc: Global, events: &[Event]) -> Result<Objects, NoMemory>
        ensures { IfOk result (λ o. o ≡ objects_after events.now) }
    {
        let mut objects = Objects::new(alloc);
        for event in events {
            objects.apply(alloc, event)?;
        }
        Ok(objects)
    }

    /// Applies one more event. Where memory is out, all stays. A delete of what isn't there takes
    /// none.
    pub fn apply(&mut self, alloc: Global, event: &Event) -> Result<(), NoMemory>
        ensures ok { OnOk result (self.new ≡ objects_step self.old event.now) }
        ensures absent { DeletesNothing self.old event.now → IsOk result }
        ensures err { OnErr result (self.new ≡ self.old) }
    {
        match event {
            Event::Apply(object) => self.put(alloc, object),
            Event::Delete { kind, key } => self.take(alloc, *kind, key),
        }
    }

    /// Puts an object, of which this is one owner more, in place of the old one.
    fn put(&mut self, alloc: Global, object: &Object) -> Result<(), NoMemory>
        ensures ok { OnOk result (self.new ≡ with_object self.old object.now) }
        ensures err { OnErr result (self.new ≡ self.old) }
    {
        match object {
            Object::Service(s) => self.services.put(alloc, &s.get().key, s.copy(alloc)?),
            Object::EndpointSlice(s) => self.slices.put(alloc, &s.get().key, s.copy(alloc)?),
            Object::Pod(p) => self.pods.put(alloc, &p.get().key, p.copy(alloc)?),
            Object::Node(n) => self.nodes.put(n.get().name.copy(alloc)?, n.copy(alloc)?),
        }
    }

    /// Takes out an object, if it is there.
    fn take(&mut self, alloc: Global, kind: Kind, key: &ObjectKey) -> Result<(), NoMemory>
        ensures ok { OnOk result (self.new ≡ without_object self.old kind key.now) }
        ensures absent { is_there self.old kind key.now ≡ false → IsOk result }
        ensures err { OnErr result (self.new ≡ self.old) }
    {
        match kind {
            Kind::Service => self.services.take(alloc, key),
            Kind::EndpointSlice => self.slices.take(alloc, key),
            Kind::Pod => self.pods.take(alloc, key),
            Kind::Node => {
                self.nodes.take(key);
                Ok(())
            }
        }
    }

    /// The Service of a key, if there is one.
    pub fn service(&self, key: &ObjectKey) -> Option<&Service>
        ensures { option_copied result ≡ finite.get self.now.services key.now }
    {
        self.services.get(key)
    }

    /// The slice of a key, if there is one.
    pub fn slice(&self, key: &ObjectKey) -> Option<&Slice>
        ensures { option_copied result ≡ finite.get self.now.slices key.now }
    {
        self.slices.get(key)
    }

    /// The pod of a key, if there is one.
    pub fn pod(&self, key: &ObjectKey) -> Option<&Pod>
        ensures { option_copied result ≡ finite.get self.now.pods key.now }
    {
        self.pods.get(key)
    }

    /// The node of a key, if there is one: a key of a namespace is that of no node.
    pub fn node_at(&self, key: &ObjectKey) -> Option<&Node>
        ensures { option_copied result ≡ finite.get self.now.nodes key.now }
    {
        self.nodes.at(key)
    }

    /// All Services, in order of their keys. Each object stands under its own key.
    pub fn all_services(&self, alloc: Global) -> Result<Vec<&Service>, NoMemory>
        ensures found { IfOk result (λ ss. map (λ s. s.now) ss.items
            ≡ finite.values self.now.services) }
        ensures own_keys { AreUnderOwnKeys self.now }
    {
        self.services.values(alloc)
    }

    /// The keys of all Services, in order.
    pub fn services(&self, alloc: Global) -> Result<Items<ObjectKey>, NoMemory>
        ensures { IfOk result (λ ks. ks ≡ finite.keys self.now.services) }
    {
        self.services.keys(alloc)
    }

    /// All nodes, in order of their names.
    pub fn nodes(&self, alloc: Global) -> Result<Items<Node>, NoMemory>
        ensures { IfOk result (λ ns. ns ≡ finite.values self.now.nodes) }
    {
        copies(alloc, self.nodes.values(alloc)?.as_slice())
    }

    /// The keys of the Services that select a pod, in order. A pod that isn't there has none.
    pub fn services_of_pod(
        &self,
        alloc: Global,
        pod: &ObjectKey,
    ) -> Result<Items<ObjectKey>, NoMemory>
        ensures { IfOk result (λ ks. ks ≡ find.services_of_pod self.now pod.now) }
    {
        match self.pods.get(pod) {
            Some(pod) => self.services_selecting(alloc, pod),
            None => Ok(Items::new(alloc)),
        }
    }

    /// The keys of the Services that select a pod, which may be one that an event brings, in order.
    /// Each object stands under its own key.
    pub fn services_selecting(&self, alloc: Global, pod: &Pod) -> Result<Items<ObjectKey>, NoMemory>
        ensures found { IfOk result (λ ks. ks ≡ find.services_selecting self.now pod.now) }
        ensures own_keys { AreUnderOwnKeys self.now }
    {
        let keys = selecting(alloc, &self.services, pod)?;
        let keys = keys.keys(alloc)?;
        copies(alloc, keys.as_slice())
    }

    /// The pods of a node, in order of their keys.
    pub fn pods_on(&self, alloc: Global, node: &Text) -> Result<Vec<&Pod>, NoMemory>
        ensures { IfOk result (λ ps. map (λ p. p.now) ps.items
            ≡ filter (find.is_on node.now) (finite.values self.now.pods)) }
    {
        let tag = PodTag::On(node.copy(alloc)?);
        self.pods.found(alloc, &tag)
    }

    /// Copies of the slices of a Service, in order of their keys.
    pub fn slices_of(&self, alloc: Global, service: &ObjectKey) -> Result<Items<Slice>, NoMemory>
        ensures { IfOk result (λ ss. ss ≡ entries.slices_of self.now service.now) }
    {
        copies(alloc, self.slices_found(alloc, service)?.as_slice())
    }

    /// The slices of a Service, in order of their keys.
    pub fn slices_found(&self, alloc: Global, service: &ObjectKey) -> Result<Vec<&Slice>, NoMemory>
        ensures { IfOk result (λ ss. map (λ s. s.now) ss.items
            ≡ entries.slices_of self.now service.now) }
    {
        self.slices.found(alloc, service)
    }

    /// Copies of the pods that a Service selects, in order of their keys. A Service that isn't
    /// there selects none.
    pub fn pods_of(&self, alloc: Global, service: &ObjectKey) -> Result<Items<Pod>, NoMemory>
        ensures { IfOk result (λ ps. ps ≡ find.pods_of self.now service.now) }
    {
        match self.services.get(service) {
            Some(service) => copies(alloc, self.pods_selected(alloc, service)?.as_slice()),
            None => Ok(Items::new(alloc)),
        }
    }

    /// The pods that a Service selects, in order of their keys: those that it selects of the pods
    /// with the pair of its selector that the fewest have.
    pub fn pods_selected(&self, alloc: Global, service: &Service) -> Result<Vec<&Pod>, NoMemory>
        ensures { IfOk result (λ ps. map (λ p. p.now) ps.items
            ≡ filter (selects service.now) (finite.values self.now.pods)) }
    {
        let rarest = self.rarest_pair(alloc, service)?;
        match service.selector.as_slice().get(rarest) {
            Some(pair) => {
                let label = label_tag(alloc, &service.key.namespace, pair)?;
                let found = self.pods.found(alloc, &label)?;
                pods_selected(alloc, found.as_slice(), service)
            }
            None => Ok(Vec::new(alloc)),
        }
    }

    /// The place of the pair of a selector that the fewest pods have: 0 where it has no pair.
    fn rarest_pair(&self, alloc: Global, service: &Service) -> Result<usize, NoMemory>
        ensures within { IfOk result (λ i. i ≤ length service.now.selector - 1) }
        ensures fewest { IfOk result (λ i. IsRarest self.now.pods service.now i) }
    {
        let mut rarest = 0;
        let mut fewest = 0;
        let mut place = 0;
        for pair in service.selector.as_slice() {
            let label = label_tag(alloc, &service.key.namespace, pair)?;
            let size = self.pods.size(&label);
            if place == 0 || size < fewest {
                rarest = place;
                fewest = size;
            }
            place += 1;
        }
        Ok(rarest)
    }

    /// The Services of which a port may answer at an address of either family and a number, or has
    /// the number as its node port, in order of their keys.
    pub fn services_at(
        &self,
        alloc: Global,
        proto: Proto,
        address: &Address,
        number: PortNo,
    ) -> Result<Vec<&Service>, NoMemory>
        ensures found { IfOk result (λ ss. map (λ s. s.now) ss.items
            ≡ filter (answers proto address.now number) (finite.values self.now.services)) }
        ensures own_keys { AreUnderOwnKeys self.now }
    {
        let tags = [
            ServiceTag::At(*address, number, proto),
            ServiceTag::NodePort(number, proto),
        ];
        let found = self.services.found_any(alloc, &tags[..])?;
        services_answering(alloc, found.as_slice(), proto, address, number)
    }

    /// The node of a name, if there is one.
    pub fn node(&self, name: &Text) -> Option<&Node>
        ensures { option_copied result ≡ finite.get self.now.nodes (objects.node_key name.now) }
    {
        self.nodes.get(name)
    }

    /// The zone of a node, if it is there and has one.
    pub fn zone_of(&self, node: &Text) -> Option<&Text>
        ensures { option_copied result ≡ objects.zone_of self.now node.now }
    {
        match self.nodes.get(node) {
            Some(node) => node.zone.as_ref(),
            None => None,
        }
    }
}
