//! Lines of scripts, and the words of a command line.
use kp_base::{Config, NoMemory};
use kp_script::{Op, ScriptFault, ScriptLine, line_of};
use std::alloc::Global;
use std::test::Fail;

/// That a test can't go on. Unlike a `Fail` it is let go while there is something still to end.
#[derive(Clone, Copy, Debug)]
pub(crate) struct Stuck;

impl From<NoMemory> for Stuck {
    fn from(_refused: NoMemory) -> Stuck {
        Stuck
    }
}

/// A text whose lines that begin with a space go on with the line before.
pub(crate) fn unfolded(alloc: Global, text: &str) -> Result<String, Fail> {
    Ok(text.replace(alloc, "\n ", "")?)
}

/// Signs of scripts, and what each stands for. `@slice` is the slice but for its endpoints, `@one`
/// its first one, and `@packet` a packet of a pod but for its port.
const SIGNS: &str = r#"@node "node":"n1","nodeAddresses":["10.0.0.1"],"clusterCIDR":"10.244.0.0/16"
@service "apiVersion":"v1","kind":"Service","metadata":{"name":"web"},
 "spec":{"clusterIP":"10.96.0.10","ports":[{"port":80,"targetPort":8080}]}
@slice "apiVersion":"discovery.k8s.io/v1","kind":"EndpointSlice",
 "metadata":{"name":"web-x","labels":{"kubernetes.io/service-name":"web"}},"addressType":"IPv4",
 "ports":[{"port":8080}]
@one "addresses":["10.244.1.2"],"nodeName":"n1"
@packet "op":"packet","src":"10.244.9.9","dst":"10.96.0.10","dport""#;

/// A script with what its signs stand for, unfolded.
pub(crate) fn whole_script(alloc: Global, script: &str) -> Result<String, Fail> {
    let mut whole = unfolded(alloc, script)?;
    for row in unfolded(alloc, SIGNS)?.lines() {
        let (sign, members) = row.split_once(' ').ok_or("a sign")?;
        whole = whole.replace(alloc, sign, members)?;
    }
    Ok(whole)
}

/// Words that stand apart by one space each.
pub(crate) fn words_of(alloc: Global, line: &str) -> Result<Vec<String>, Fail> {
    let mut words = Vec::new(alloc);
    for word in line.split(' ') {
        words.push(String::from_str(alloc, word)?)?;
    }
    Ok(words)
}

/// What the line of this number asks for.
pub(crate) fn op_of(alloc: Global, number: u64, line: &str) -> Result<Op, Fail> {
    match read(alloc, number, line) {
        Ok(line) => Ok(line.op),
        Err(_) => Err(Fail::from("a line of a script")),
    }
}

/// The configuration of a line.
pub(crate) fn config_of(alloc: Global, line: &str) -> Result<Config, Fail> {
    match op_of(alloc, 1, line)? {
        Op::Config(config) => Ok(config),
        _ => Err(Fail::from("a configuration")),
    }
}

/// What a line is read as. A call with a long contract is behind a function that has none.
pub(crate) fn read(alloc: Global, number: u64, line: &str) -> Result<ScriptLine, ScriptFault> {
    line_of(alloc, line.as_bytes(), number == 1)
}

/// Adds a line and its line feed.
pub(crate) fn push_line(text: &mut String, line: &str) -> Result<(), NoMemory> {
    text.push_str(line)?;
    text.push_str("\n")?;
    Ok(())
}
