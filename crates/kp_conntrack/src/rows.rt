//! Steps on rows and on the lists of their ages.
ghost use Rattle.std.specs.Prelude.{◌≡◌, ℕ, ◌<◌, [], false, true, not, length, slice_get, slice_set, vec_len, IfNone, IfOk, IfSome};
ghost use Rattle.kp_links.specs.Lists.{IsMoved, list_count, rows_of};
ghost use Rattle.kp_track_defs.specs.Entries as entries;
ghost use Rattle.kp_track_defs.specs.Entries.{renewed};
ghost use Rattle.kp_track_defs.specs.Kept.{is_sent_to};
ghost use Rattle.kp_conntrack.specs.Buckets.{age_list};
ghost use Rattle.kp_conntrack.specs.Laid.{AllFree, AreAllSized, AreOf, IsLaid, entries_in, entry_at};
ghost use Rattle.kp_conntrack.specs.Marked.{IsFreedIf};
ghost use Rattle.kp_conntrack.specs.Laid.{kept_rows};
ghost use Rattle.std.specs.List.{filter};

use crate::buckets::{ROWS, age_of, endpoint_bucket, is_within};
use crate::index::Index;
use crate::sought::OfEndpoint;
use kp_base::{Address, Endpoint, NoMemory, PortNo, Proto};
use kp_links::{Links, Test};
use kp_track_defs::{Connection, Entry};
use std::alloc::Global;

/// The list of rows that have an entry, and that of free ones.
pub(crate) const KEPT: u32 = 0;

pub(crate) const FREE: u32 = 1;

/// An entry that stands for none.
fn blank() -> Entry {
    let address = Address::v4(0);
    let port = PortNo::new(1).unwrap();
    Entry {
        connection: Connection {
            proto: Proto::Tcp,
            source: address,
            target: address,
            source_port: 0,
            port,
        },
        endpoint: Endpoint { address, port },
        masked: false,
        latest: 0,
    }
}

/// So many rows that stand for none.
pub(crate) fn blank_rows(alloc: Global, count: u32) -> Result<Vec<Entry>, NoMemory>
    ensures { IfOk result (λ rows. vec_len rows ≡ count) }
{
    let mut rows = Vec::with_capacity(alloc, count as usize)?;
    for _row in 0..count {
        rows.push_reserved(blank());
    }
    Ok(rows)
}

/// So many rows, all of them free.
pub(crate) fn free_order(alloc: Global, count: u32) -> Result<Links, NoMemory>
    requires { count < 65537 }
    ensures { IfOk result (λ order. AllFree order count) }
{
    let mut order = Links::new(alloc, 2, count)?;
    for row in 0..count {
        order.push_back(FREE, row);
    }
    Ok(order)
}

/// The row of this age that was heard of first, where it is past its timeout.
fn dead_front(rows: &[Entry], ages: &Links, age: u32, now: u64) -> Option<u32>
    requires list_in { age < list_count ages.now }
    requires rows_in { ages.now.rows ≡ length rows.now }
    ensures found { IfSome result (λ row. slice_get (rows_of ages.now age) 0 ≡ Some row) }
    ensures dead { IfSome result
        (λ row. entries.is_within now (entry_at rows.now row) ≡ false) }
    ensures none { IfNone result ((row : ℕ) → slice_get (rows_of ages.now age) 0 ≡ Some row
        → entries.is_within now (entry_at rows.now row) ≡ true) }
    ensures within { IfSome result (λ row. row < ages.now.rows) }
{
    let row = ages.front(age)?;
    if is_within(&rows[row as usize], now) {
        return None;
    }
    Some(row)
}

/// A row that is past its timeout, where there is one.
pub(crate) fn dead_row(rows: &[Entry], ages: &Links, now: u64) -> Option<u32>
    requires sized { AreOf ages.now 2 65536 }
    requires rows_in { length rows.now ≡ 65536 }
    ensures found { IfSome result
        (λ row. (age : ℕ) × (slice_get (rows_of ages.now age) 0 ≡ Some row)) }
    ensures dead { IfSome result
        (λ row. entries.is_within now (entry_at rows.now row) ≡ false) }
    ensures none { IfNone result ((age row : ℕ) → age < 2
        → slice_get (rows_of ages.now age) 0 ≡ Some row
        → entries.is_within now (entry_at rows.now row) ≡ true) }
    ensures within { IfSome result (λ row. row < 65536) }
{
    match dead_front(rows, ages, 0, now) {
        Some(row) => Some(row),
        None => dead_front(rows, ages, 1, now),
    }
}

/// Hears of a flow of the entry of a row: it was heard of last of its age. Hands the entry out.
pub(crate) fn renew(rows: &mut Vec<Entry>, ages: &mut Links, row: u32, now: u64) -> Entry
    requires row_in { row < vec_len rows.old }
    requires ages_in { row < ages.old.rows }
    requires list_in { list_count ages.old ≡ 2 }
    ensures entry { result ≡ entry_at rows.old.items row }
    ensures rows { rows.new.items
        ≡ slice_set rows.old.items row (renewed now (entry_at rows.old.items row)) }
    ensures ages { IsMoved ages.old ages.new (age_list (entry_at rows.old.items row)) row }
{
    let entry = rows[row as usize];
    rows[row as usize].latest = now;
    ages.move_back(age_of(entry.connection.proto), row);
    entry
}

/// Frees a row, where it is to go.
pub(crate) fn free_if(goes: bool, row: u32, order: &mut Links, index: &mut Index)
    requires order_in { AreOf order.old 2 65536 }
    requires sized { AreAllSized index.old }
    requires row_in { row < 65536 }
    ensures { IsFreedIf goes order.old order.new index.old index.new row }
{
    if goes {
        order.move_back(FREE, row);
        index.remove(row);
    }
}

/// Frees the rows that are past their timeout.
pub(crate) fn drop_dead(rows: &[Entry], order: &mut Links, index: &mut Index, now: u64)
    requires { IsLaid rows.now order.old index.old now }
    ensures laid { IsLaid rows.now order.new index.new now }
    ensures entries { entries_in rows.now order.new
        ≡ filter (entries.is_within now) (entries_in rows.now order.old) }
{
    while let Some(row) = dead_row(rows, &index.ages, now) {
        order.move_back(FREE, row);
        index.remove(row);
    }
}

/// Frees the rows of UDP that were sent to an endpoint.
pub(crate) fn drop_sent_to(
    rows: &[Entry],
    order: &mut Links,
    index: &mut Index,
    endpoint: &Endpoint,
)
    requires { (moment : ℕ) × IsLaid rows.now order.old index.old moment }
    ensures laid { (moment : ℕ) → IsLaid rows.now order.old index.old moment
        → IsLaid rows.now order.new index.new moment }
    ensures entries { entries_in rows.now order.new
        ≡ filter (λ e. not (is_sent_to endpoint.now e)) (entries_in rows.now order.old) }
{
    let sought = OfEndpoint { rows, endpoint };
    let bucket = endpoint_bucket(endpoint);
    let mut next = index.endpoints.front(bucket);
    for _turn in 0..ROWS {
        let Some(row) = next else {
            return;
        };
        next = index.endpoints.after(bucket, row);
        free_if(sought.passes(row), row, order, index);
    }
}

/// Frees all rows.
pub(crate) fn drop_all(rows: &[Entry], order: &mut Links, index: &mut Index)
    requires { (moment : ℕ) × IsLaid rows.now order.old index.old moment }
    ensures laid { (moment : ℕ) → IsLaid rows.now order.old index.old moment
        → IsLaid rows.now order.new index.new moment }
    ensures none { kept_rows order.new ≡ [] }
{
    while let Some(row) = order.front(KEPT) {
        order.move_back(FREE, row);
        index.remove(row);
    }
}
