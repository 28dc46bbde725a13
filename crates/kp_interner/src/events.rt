//! Events whose texts are known.
ghost use Rattle.std.specs.Prelude.{◌≡◌, IfOk};

use crate::interner::Interner;
use kp_base::{Copied, Items, Kept, NoMemory};
use kp_types::{Event, Object, Pod, Service};
use std::alloc::Global;

impl Interner {
    /// The same events, whose objects have the texts that are known in place of their own: Pods and
    /// slices all of them, Services their namespace and selector.
    pub fn events(&mut self, alloc: Global, events: &Items<Event>) -> Result<Items<Event>, NoMemory>
        ensures { IfOk result (λ es. es ≡ events.now) }
    {
        let mut same = Vec::with_capacity(alloc, events.as_slice().len())?;
        for event in events.as_slice() {
            same.push(self.event(alloc, event)?)?;
        }
        Ok(Items::from_vec(same))
    }

    /// The same event.
    fn event(&mut self, alloc: Global, event: &Event) -> Result<Event, NoMemory>
        ensures { IfOk result (λ e. e ≡ event.now) }
    {
        match event {
            Event::Apply(Object::Pod(pod)) => {
                let pod = Kept::of(alloc, self.pod(alloc, pod.get())?)?;
                Ok(Event::Apply(Object::Pod(pod)))
            }
            Event::Apply(Object::EndpointSlice(slice)) => {
                let slice = Kept::of(alloc, self.slice(alloc, slice.get())?)?;
                Ok(Event::Apply(Object::EndpointSlice(slice)))
            }
            Event::Apply(Object::Service(service)) => {
                let service = Kept::of(alloc, self.service(alloc, service.get())?)?;
                Ok(Event::Apply(Object::Service(service)))
            }
            _ => event.copy(alloc),
        }
    }

    /// The same Service.
    fn service(&mut self, alloc: Global, service: &Service) -> Result<Service, NoMemory>
        ensures { IfOk result (λ s. s ≡ service.now) }
    {
        let mut same = service.copy(alloc)?;
        same.key = self.key(alloc, &service.key)?;
        same.selector = self.pairs(alloc, &service.selector)?;
        Ok(same)
    }

    /// The same Pod.
    fn pod(&mut self, alloc: Global, pod: &Pod) -> Result<Pod, NoMemory>
        ensures { IfOk result (λ p. p ≡ pod.now) }
    {
        let key = self.key(alloc, &pod.key)?;
        let labels = self.pairs(alloc, &pod.labels)?;
        let node = self.optional(alloc, &pod.node)?;
        let ports = pod.ports.copy(alloc)?;
        Ok(Pod {
            key,
            labels,
            deleting: pod.deleting,
            node,
            ports,
            finished: pod.finished,
            address: pod.address,
            address6: pod.address6,
            ready: pod.ready,
        })
    }
}
