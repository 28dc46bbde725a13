//! The shared chains that are joined.
ghost use Rattle.std.specs.Prelude.{◌≡◌, true, OnOk};
ghost use Rattle.kp_types.specs.Chains.{is_chain_name};
ghost use Rattle.kp_types.specs.Places.{family_of_table};
ghost use Rattle.kp_writer.specs.Shared as spec;

use crate::next::NextChains;
use crate::shared::Touched;
use kp_base::{Family, NoMemory};
use kp_blocks::Blocks;
use kp_types::{ChainAt, ChainName, TableName};
use std::alloc::Global;

/// The shared chains of a family that are touched are joined from the blocks, and no others.
pub fn join_touched(
    alloc: Global,
    family: Family,
    blocks: &Blocks,
    touched: &Touched,
    next: &mut NextChains,
) -> Result<(), NoMemory>
    ensures { OnOk result (next.new
        ≡ spec.with_shared family blocks.now touched.now next.old) }
{
    let nat = TableName::nat_of(family);
    let filter = TableName::filter_of(family);
    join_if(alloc, blocks, next, touched.services, nat, "KUBE-SERVICES")?;
    join_if(
        alloc,
        blocks,
        next,
        touched.node_ports,
        nat,
        "KUBE-NODEPORTS",
    )?;
    join_if(
        alloc,
        blocks,
        next,
        touched.firewall,
        filter,
        "KUBE-PROXY-FIREWALL",
    )?;
    join_if(
        alloc,
        blocks,
        next,
        touched.external,
        filter,
        "KUBE-EXTERNAL-SERVICES",
    )?;
    join_if(
        alloc,
        blocks,
        next,
        touched.refusals,
        filter,
        "KUBE-SERVICES",
    )
}

/// A shared chain is joined where it is touched.
fn join_if(
    alloc: Global,
    blocks: &Blocks,
    next: &mut NextChains,
    touched: bool,
    table: TableName,
    chain: &str,
) -> Result<(), NoMemory>
    requires { is_chain_name chain.now ≡ true }
    ensures { OnOk result (next.new
        ≡ spec.join_if (family_of_table table) blocks.now next.old touched
        (record { table = table; chain = chain.now })) }
{
    if touched {
        join(alloc, blocks, next, table, chain)
    } else {
        Ok(())
    }
}

/// A shared chain is joined.
fn join(
    alloc: Global,
    blocks: &Blocks,
    next: &mut NextChains,
    table: TableName,
    chain: &str,
) -> Result<(), NoMemory>
    requires { is_chain_name chain.now ≡ true }
    ensures { OnOk result (next.new
        ≡ spec.join_if (family_of_table table) blocks.now next.old true
        (record { table = table; chain = chain.now })) }
{
    let at = ChainAt {
        table,
        chain: ChainName::new(chain),
    };
    let rules = blocks.joined(alloc, table.family(), &at)?;
    next.join(alloc, at, rules)
}
