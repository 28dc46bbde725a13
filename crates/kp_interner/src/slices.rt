//! Slices whose texts are known.
ghost use Rattle.std.specs.Prelude.{◌≡◌, IfOk};

use crate::interner::Interner;
use kp_base::{Copied, Items, NoMemory, ObjectKey, Text};
use kp_types::{Slice, SliceEndpoint};
use std::alloc::Global;

impl Interner {
    /// The same slice.
    pub(crate) fn slice(&mut self, alloc: Global, slice: &Slice) -> Result<Slice, NoMemory>
        ensures { IfOk result (λ s. s ≡ slice.now) }
    {
        let key = self.key(alloc, &slice.key)?;
        let service = self.optional(alloc, &slice.service)?;
        let ports = slice.ports.copy(alloc)?;
        let endpoints = self.endpoints(alloc, &slice.endpoints)?;
        Ok(Slice {
            key,
            service,
            managed: slice.managed,
            family: slice.family,
            ports,
            endpoints,
        })
    }

    /// The same endpoints.
    fn endpoints(
        &mut self,
        alloc: Global,
        endpoints: &Items<SliceEndpoint>,
    ) -> Result<Items<SliceEndpoint>, NoMemory>
        ensures { IfOk result (λ es. es ≡ endpoints.now) }
    {
        let mut same = Vec::with_capacity(alloc, endpoints.as_slice().len())?;
        for endpoint in endpoints.as_slice() {
            same.push(self.endpoint(alloc, endpoint)?)?;
        }
        Ok(Items::from_vec(same))
    }

    /// The same endpoint.
    fn endpoint(
        &mut self,
        alloc: Global,
        endpoint: &SliceEndpoint,
    ) -> Result<SliceEndpoint, NoMemory>
        ensures { IfOk result (λ e. e ≡ endpoint.now) }
    {
        let node = self.optional(alloc, &endpoint.node)?;
        let zone = self.optional(alloc, &endpoint.zone)?;
        let hints = self.texts(alloc, &endpoint.hints)?;
        let pod = self.optional_key(alloc, &endpoint.pod)?;
        Ok(SliceEndpoint {
            address: endpoint.address,
            ready: endpoint.ready,
            serving: endpoint.serving,
            terminating: endpoint.terminating,
            node,
            zone,
            hints,
            pod,
        })
    }

    /// The same texts.
    fn texts(&mut self, alloc: Global, texts: &Items<Text>) -> Result<Items<Text>, NoMemory>
        ensures { IfOk result (λ ts. ts ≡ texts.now) }
    {
        let mut same = Vec::with_capacity(alloc, texts.as_slice().len())?;
        for text in texts.as_slice() {
            same.push(self.text(alloc, text)?)?;
        }
        Ok(Items::from_vec(same))
    }

    /// The same key, if there is one.
    fn optional_key(
        &mut self,
        alloc: Global,
        key: &Option<ObjectKey>,
    ) -> Result<Option<ObjectKey>, NoMemory>
        ensures { IfOk result (λ k. k ≡ key.now) }
    {
        match key {
            Some(key) => Ok(Some(self.key(alloc, key)?)),
            None => Ok(None),
        }
    }
}
