//! What the health ports of all Services answer, kept from one record to the next.
ghost use Rattle.std.specs.Prelude.{◌≡◌, ◌++◌, true, map, IfOk, OnErr, OnOk, string_bytes};
ghost use Rattle.std.specs.FinMap as finite;
ghost use Rattle.std.specs.List.{list_any};
ghost use Rattle.std.specs.Ordering.{eq_by_cmp};
ghost use Rattle.kp_base.specs.Keys.{key_cmp};
ghost use Rattle.kp_base.specs.declared.config.Config.{Config as OneConfig};
ghost use Rattle.kp_base.specs.declared.key.ObjectKey.{ObjectKey as Key};
ghost use Rattle.kp_object_defs.specs.Objects.{Objects as AllObjects, no_objects};
ghost use Rattle.kp_print.specs.Fronts.{HasFront};
ghost use Rattle.kp_store.specs.Touched.{is_touched};
ghost use Rattle.kp_health_defs.specs.AcceptRules.{health_batch_in};
ghost use Rattle.kp_health_defs.specs.HealthText.{health_lines};
ghost use Rattle.kp_health.specs.Known.{AreKnown, AreKnownBut, AreNewer, IsKnownAt};

use crate::accept::health_batch;
use crate::entries::health_at;
use crate::line::push_lines;
use kp_base::{Config, Copied, Items, NoMemory, ObjectKey, PortNo};
use kp_health_defs::Health;
use kp_store::{Objects, Touched};
use kp_types::Batch;
use std::alloc::Global;
use std::collections::BTreeMap;
use std::marker::Model;
use std::mem::replace;

/// What the health ports of Services answer. Contracts see a finite map from the Services.
pub struct HealthCounts {
    answers: BTreeMap<ObjectKey, Health>,
}

impl Drop for HealthCounts {
    fn drop(self) {
        let HealthCounts { answers } = self;
    }
}

impl Model for HealthCounts {
    ghost use Rattle.std.specs.FinMap as finite;
    ghost use Rattle.kp_base.specs.Keys.{key_cmp};
    ghost use Rattle.kp_health.specs.Known.{Answers, answers_code};

    ghost Value = { Answers };

    ghost coded = { answers_code };

    ghost view = { λ h. finite.from_entries {R = key_cmp} h.answers.entries };
}

impl HealthCounts {
    /// What is known of no objects: no Service has a health port.
    pub fn new(alloc: Global) -> HealthCounts
        ensures none { result ≡ finite.empty }
        ensures known { (config : OneConfig) → AreKnown config no_objects result }
    {
        HealthCounts {
            answers: BTreeMap::new(alloc),
        }
    }

    /// Makes the answers for the Services that were touched anew, by the objects as they are now,
    /// where those for all others are known by them. Where memory is out, the others still are, so
    /// that the same call can be made again, and each of the touched is as before or made anew.
    #[tactic(auto, using(crate::proofs::KnownAnswers::newer_same, crate::proofs::KnownAnswers::newer_all))]
    pub fn update(
        &mut self,
        alloc: Global,
        config: &Config,
        objects: &Objects,
        touched: &Touched,
    ) -> Result<(), NoMemory>
        ensures ok { AreKnownBut (is_touched touched.now) config.now objects.now self.old
            → OnOk result (AreKnown config.now objects.now self.new) }
        ensures err { AreKnownBut (is_touched touched.now) config.now objects.now self.old
            → OnErr result (AreKnownBut (is_touched touched.now) config.now objects.now self.new) }
        ensures newer { AreNewer config.now objects.now self.old self.new }
    {
        if touched.all {
            let mut made = HealthCounts::new(alloc);
            made.make_all(alloc, config, objects)?;
            self.take_over(made);
            Ok(())
        } else {
            let keys = touched.keys.keys(alloc)?;
            self.make_each(alloc, config, objects, keys.as_slice())?;
            Ok(())
        }
    }

    /// Lets all answers go, and has others in their place.
    fn take_over(&mut self, others: HealthCounts)
        ensures { self.new ≡ others }
    {
        let _gone = replace(self, others);
    }

    /// Makes the answers for all Services.
    fn make_all(
        &mut self,
        alloc: Global,
        config: &Config,
        objects: &Objects,
    ) -> Result<(), NoMemory>
        requires { self.old ≡ finite.empty }
        ensures { OnOk result (AreKnown config.now objects.now self.new) }
    {
        let services = objects.services(alloc)?;
        self.make_listed(alloc, config, objects, services.as_slice())?;
        Ok(())
    }

    /// Makes the answers for listed Services. What was known stays known, and what isn't made anew
    /// is as before.
    #[tactic(auto, using(crate::proofs::KnownAnswers::newer_same))]
    fn make_listed(
        &mut self,
        alloc: Global,
        config: &Config,
        objects: &Objects,
        services: &[ObjectKey],
    ) -> Result<(), NoMemory>
        ensures made { OnOk result ((k : Key)
            → list_any (eq_by_cmp key_cmp k) services.now ≡ true
            → IsKnownAt config.now objects.now self.new k) }
        ensures kept { (k : Key) → IsKnownAt config.now objects.now self.old k
            → IsKnownAt config.now objects.now self.new k }
        ensures newer { AreNewer config.now objects.now self.old self.new }
    {
        for service in services {
            self.make(alloc, config, objects, service)?;
        }
        Ok(())
    }

    /// Makes the answers for the Services of keys. What was known stays known, and what isn't made
    /// anew is as before.
    #[tactic(auto, using(crate::proofs::KnownAnswers::newer_same))]
    fn make_each(
        &mut self,
        alloc: Global,
        config: &Config,
        objects: &Objects,
        keys: &[&ObjectKey],
    ) -> Result<(), NoMemory>
        ensures made { OnOk result ((k : Key)
            → list_any (eq_by_cmp key_cmp k) (map (λ q. q.now) keys.now) ≡ true
            → IsKnownAt config.now objects.now self.new k) }
        ensures kept { (k : Key) → IsKnownAt config.now objects.now self.old k
            → IsKnownAt config.now objects.now self.new k }
        ensures newer { AreNewer config.now objects.now self.old self.new }
    {
        for key in keys {
            self.make(alloc, config, objects, *key)?;
        }
        Ok(())
    }

    /// Makes the answer for the Service of a key. What was known stays known, and the other answers
    /// are as before.
    #[tactic(auto, using(crate::proofs::KnownAnswers::newer_same))]
    fn make(
        &mut self,
        alloc: Global,
        config: &Config,
        objects: &Objects,
        key: &ObjectKey,
    ) -> Result<(), NoMemory>
        ensures made { OnOk result (IsKnownAt config.now objects.now self.new key.now) }
        ensures kept { (k : Key) → IsKnownAt config.now objects.now self.old k
            → IsKnownAt config.now objects.now self.new k }
        ensures newer { AreNewer config.now objects.now self.old self.new }
    {
        match health_at(alloc, config, objects, key)? {
            Some(health) => {
                self.put(key.copy(alloc)?, health)?;
                Ok(())
            }
            None => {
                self.take(key);
                Ok(())
            }
        }
    }

    /// Puts an answer. Where memory is out, all stays.
    fn put(&mut self, key: ObjectKey, health: Health) -> Result<(), NoMemory>
        ensures ok { OnOk result (self.new ≡ finite.insert self.old key health) }
        ensures err { OnErr result (self.new ≡ self.old) }
    {
        self.answers.insert(key, health)?;
        Ok(())
    }

    /// Takes out an answer, if it is there.
    fn take(&mut self, key: &ObjectKey)
        ensures { self.new ≡ finite.remove self.old key.now }
    {
        self.answers.remove(key);
    }

    /// The answers, in order of the Services.
    fn healths(&self, alloc: Global) -> Result<Vec<&Health>, NoMemory>
        ensures { IfOk result (λ hs. map (λ h. h.now) hs.items ≡ finite.values self.now) }
    {
        Ok(self.answers.values().collect(alloc)?)
    }

    /// Adds the lines of all health ports, in order of the Services.
    pub fn push_lines(&self, alloc: Global, text: &mut String) -> Result<(), NoMemory>
        ensures added { (config : OneConfig) (o : AllObjects) → AreKnown config o self.now
            → OnOk result (string_bytes text.new
            ≡ string_bytes text.old ++ health_lines config o) }
        ensures front { OnErr result (HasFront text.new text.old) }
    {
        let healths = self.healths(alloc)?;
        push_lines(text, healths.as_slice())
    }

    /// The batch that makes the accept rules of all health ports.
    pub fn batch(&self, alloc: Global) -> Result<Batch, NoMemory>
        ensures { (config : OneConfig) (o : AllObjects) → AreKnown config o self.now
            → IfOk result (λ b. b.edits ≡ health_batch_in config o) }
    {
        let ports = self.ports(alloc)?;
        let batch = health_batch(alloc, &ports)?;
        Ok(batch)
    }

    /// All health ports, in order of the Services.
    fn ports(&self, alloc: Global) -> Result<Items<PortNo>, NoMemory>
        ensures { IfOk result (λ ps. ps ≡ map (λ h. h.port) (finite.values self.now)) }
    {
        let healths = self.healths(alloc)?;
        let mut ports = Vec::new(alloc);
        for health in healths.as_slice() {
            ports.push(health.port)?;
        }
        Ok(Items::from_vec(ports))
    }
}
