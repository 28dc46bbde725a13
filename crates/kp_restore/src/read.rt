//! Tables and batches are read from their texts.
ghost use Rattle.std.specs.Prelude.{◌≡◌, ℕ, List, true, Err, IfOk};
ghost use Rattle.kp_base.specs.declared.address.Family.TheVariants.{V4, V6};
ghost use Rattle.kp_table_defs.specs.Rebuild.{Chains};
ghost use Rattle.kp_types.specs.declared.rule.Edit as edit_row;
ghost use Rattle.kp_restore_defs.specs.BatchText.{is_canonical_batch, batch_lines, batch_text_of};
ghost use Rattle.kp_restore_defs.specs.FirstBadLine.{IsFirstBadLine};
ghost use Rattle.kp_restore_defs.specs.TableText.{is_canonical_table, table_lines, table_text_of};
ghost use Rattle.kp_restore.specs.declared.fault.TextFault.TheVariants.{BadText};

use crate::fault::TextFault;
use crate::reader::read_text;
use crate::section::Form;
use crate::values::{batch_of, table_of};
use kp_base::Family;
use kp_rules::Table;
use kp_types::Batch;
use std::alloc::Global;

/// The table that has this text (iptables-restore(8)): a section for nat and one for filter, each
/// with its built-in chains, its other chains by their bytes, and then the rules of both in their
/// order. Each table has one text, and no other text is taken. It takes linear time.
pub fn read_table(alloc: Global, bytes: &[u8]) -> Result<Table, TextFault>
    ensures ok { IfOk result (λ t. (t.syncs ≡ 0) × (is_canonical_table V4 t.chains ≡ true)
        × (table_text_of V4 t.chains ≡ bytes.now)) }
    ensures all { (n : ℕ) → result ≡ Err (BadText n)
        → (chains : Chains) → is_canonical_table V4 chains ≡ true
        → table_text_of V4 chains ≡ bytes.now → ⊥ }
    ensures bad { (n : ℕ) → result ≡ Err (BadText n)
        → IsFirstBadLine (λ chains. is_canonical_table V4 chains ≡ true) (table_lines V4)
        bytes.now n }
{
    family_table(alloc, Family::V4, bytes)
}

/// The table of IPv6 that has this text (ip6tables-restore(8)), in the form of `read_table`.
pub fn read_table_six(alloc: Global, bytes: &[u8]) -> Result<Table, TextFault>
    ensures ok { IfOk result (λ t. (t.syncs ≡ 0) × (is_canonical_table V6 t.chains ≡ true)
        × (table_text_of V6 t.chains ≡ bytes.now)) }
    ensures all { (n : ℕ) → result ≡ Err (BadText n)
        → (chains : Chains) → is_canonical_table V6 chains ≡ true
        → table_text_of V6 chains ≡ bytes.now → ⊥ }
    ensures bad { (n : ℕ) → result ≡ Err (BadText n)
        → IsFirstBadLine (λ chains. is_canonical_table V6 chains ≡ true) (table_lines V6)
        bytes.now n }
{
    family_table(alloc, Family::V6, bytes)
}

/// The table of a family that has this text.
fn family_table(alloc: Global, family: Family, bytes: &[u8]) -> Result<Table, TextFault>
    ensures ok { IfOk result (λ t. (t.syncs ≡ 0) × (is_canonical_table family t.chains ≡ true)
        × (table_text_of family t.chains ≡ bytes.now)) }
    ensures all { (n : ℕ) → result ≡ Err (BadText n)
        → (chains : Chains) → is_canonical_table family chains ≡ true
        → table_text_of family chains ≡ bytes.now → ⊥ }
    ensures bad { (n : ℕ) → result ≡ Err (BadText n)
        → IsFirstBadLine (λ chains. is_canonical_table family chains ≡ true) (table_lines family)
        bytes.now n }
{
    let sections = read_text(alloc, Form::Whole, family, bytes)?;
    Ok(table_of(alloc, sections)?)
}

/// The batch whose edits have this text (iptables-restore(8) with --noflush): a section for each
/// table with an edit, nat before filter, with a declaration of each chain by its bytes, then the
/// rules of the chains that are written, and then the removes. Each batch has one text, and no
/// other text is taken.
pub fn read_batch(alloc: Global, bytes: &[u8]) -> Result<Batch, TextFault>
    ensures ok { IfOk result (λ b. (is_canonical_batch V4 b.edits ≡ true)
        × (batch_text_of V4 b.edits ≡ bytes.now)) }
    ensures all { (n : ℕ) → result ≡ Err (BadText n) → (edits : List edit_row.Edit)
        → is_canonical_batch V4 edits ≡ true → batch_text_of V4 edits ≡ bytes.now → ⊥ }
    ensures bad { (n : ℕ) → result ≡ Err (BadText n)
        → IsFirstBadLine (λ edits. is_canonical_batch V4 edits ≡ true) (batch_lines V4)
        bytes.now n }
{
    family_batch(alloc, Family::V4, bytes)
}

/// The batch of IPv6's tables whose edits have this text (ip6tables-restore(8) with --noflush), in
/// the form of `read_batch`.
pub fn read_batch_six(alloc: Global, bytes: &[u8]) -> Result<Batch, TextFault>
    ensures ok { IfOk result (λ b. (is_canonical_batch V6 b.edits ≡ true)
        × (batch_text_of V6 b.edits ≡ bytes.now)) }
    ensures all { (n : ℕ) → result ≡ Err (BadText n) → (edits : List edit_row.Edit)
        → is_canonical_batch V6 edits ≡ true → batch_text_of V6 edits ≡ bytes.now → ⊥ }
    ensures bad { (n : ℕ) → result ≡ Err (BadText n)
        → IsFirstBadLine (λ edits. is_canonical_batch V6 edits ≡ true) (batch_lines V6)
        bytes.now n }
{
    family_batch(alloc, Family::V6, bytes)
}

/// The batch of a family's tables whose edits have this text.
fn family_batch(alloc: Global, family: Family, bytes: &[u8]) -> Result<Batch, TextFault>
    ensures ok { IfOk result (λ b. (is_canonical_batch family b.edits ≡ true)
        × (batch_text_of family b.edits ≡ bytes.now)) }
    ensures all { (n : ℕ) → result ≡ Err (BadText n) → (edits : List edit_row.Edit)
        → is_canonical_batch family edits ≡ true → batch_text_of family edits ≡ bytes.now → ⊥ }
    ensures bad { (n : ℕ) → result ≡ Err (BadText n)
        → IsFirstBadLine (λ edits. is_canonical_batch family edits ≡ true) (batch_lines family)
        bytes.now n }
{
    let sections = read_text(alloc, Form::Changes, family, bytes)?;
    Ok(batch_of(alloc, sections)?)
}
