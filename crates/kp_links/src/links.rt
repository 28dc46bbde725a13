//! Lists as rings of rows.
ghost use Rattle.std.specs.Prelude.{◌≡◌, ◌≢◌, ℕ, ◌+◌, ◌<◌, ◌^◌, [], ◌∷◌, ◌++◌, Bool, List, slice_get, vec_len, IfOk, IfSome};
ghost use Rattle.std.specs.List.{find as first_passing};
ghost use Rattle.futures.specs.LinkedLists.{IsApart, IsIn};
ghost use Rattle.kp_links.specs.Lists.{AreEmpty, IsFree, IsMoved, IsPushed, IsUnlinked, list_count, rows_of};
ghost use Rattle.kp_links.specs.Rings.{AreClosed, IsSkipped, IsSpliced, next_at, prev_at};

use kp_base::NoMemory;
use std::alloc::Global;
use std::marker::Model;

/// A test of rows.
pub trait Test {
    /// Whether a row passes.
    ghost test: { Self → ℕ → Bool };

    fn passes(&self, row: u32) -> bool
        ensures { result ≡ test self.now row };
}

/// A fixed number of lists of rows, both numbered from 0. A row is in at most one list. Only `new`
/// takes memory.
#[derive(Drop)]
pub struct Links {
    // Each list is a ring through its head. The head of a list is at its number, and a row behind
    // all heads.
    links: Vec<Link>,
    // The list that each row is in.
    owners: Vec<Option<u32>>,
    heads: u32,
}

#[derive(Clone, Copy)]
struct Link {
    prev: u32,
    next: u32,
}

impl Model for Links {
    ghost use Rattle.kp_links.specs.Lists.{Lists, lists_code};

    ghost Value = { Lists };

    ghost coded = { lists_code };

    ghost use Rattle.kp_links.specs.Rings.{AreRings, lists_in};

    ghost view = { λ s. lists_in s.links.items s.owners.items s.heads };

    ghost invariant = { λ s. AreRings s.links.items s.owners.items s.heads };
}

/// So many places, each of which leads to itself.
fn closed(alloc: Global, count: u32) -> Result<Vec<Link>, NoMemory>
    ensures len { IfOk result (λ links. vec_len links ≡ count) }
    ensures closed { IfOk result (λ links. AreClosed links.items count) }
{
    let mut links = Vec::with_capacity(alloc, count as usize)?;
    for place in 0..count {
        links.push_reserved(Link {
            prev: place,
            next: place,
        });
    }
    Ok(links)
}

/// Joins the two neighbours of a place.
fn skip(links: &mut Vec<Link>, at: u32)
    requires at_in { at < vec_len links.old }
    requires prev_in { prev_at links.old.items at < vec_len links.old }
    requires next_in { next_at links.old.items at < vec_len links.old }
    ensures skips { IsSkipped links.old.items links.new.items at }
    ensures len { vec_len links.new ≡ vec_len links.old }
{
    let Link { prev, next } = links[at as usize];
    links[prev as usize].next = next;
    links[next as usize].prev = prev;
}

/// Puts a place just before another.
fn splice(links: &mut Vec<Link>, at: u32, next: u32)
    requires at_in { at < vec_len links.old }
    requires next_in { next < vec_len links.old }
    requires prev_in { prev_at links.old.items next < vec_len links.old }
    requires not_next { at ≢ next }
    requires not_prev { at ≢ prev_at links.old.items next }
    ensures splices { IsSpliced links.old.items links.new.items at next }
    ensures len { vec_len links.new ≡ vec_len links.old }
{
    let prev = links[next as usize].prev;
    links[at as usize] = Link { prev, next };
    links[prev as usize].next = at;
    links[next as usize].prev = at;
}

impl Links {
    /// So many empty lists, and so many rows, of which each is in none.
    pub fn new(alloc: Global, lists: u32, rows: u32) -> Result<Links, NoMemory>
        requires { lists + rows < 2 ^ 32 }
        ensures { IfOk result (λ s. AreEmpty s lists rows) }
    {
        let mut owners = Vec::new(alloc);
        owners.resize(rows as usize, None)?;
        Ok(Links {
            links: closed(alloc, lists + rows)?,
            owners,
            heads: lists,
        })
    }

    /// The first row of a list, which is in no other list.
    pub fn front(&self, list: u32) -> Option<u32>
        requires { list < list_count self.now }
        ensures value { result ≡ slice_get (rows_of self.now list) 0 }
        ensures within { IfSome result (λ row. row < self.now.rows) }
        ensures elsewhere { IfSome result
            (λ row. (other : ℕ) → other ≢ list → ¬ IsIn row (rows_of self.now other)) }
        ensures apart { IsApart (rows_of self.now list) }
    {
        let first = self.links[list as usize].next;
        if first == list {
            None
        } else {
            Some(first - self.heads)
        }
    }

    /// The row that follows a row of a list.
    pub fn after(&self, list: u32, row: u32) -> Option<u32>
        requires list_in { list < list_count self.now }
        requires row_in { IsIn row (rows_of self.now list) }
        ensures value { (before rest : List ℕ) → rows_of self.now list ≡ before ++ row ∷ rest
            → result ≡ slice_get rest 0 }
        ensures within { IfSome result (λ row. row < self.now.rows) }
    {
        let next = self.links[(self.heads + row) as usize].next;
        if next == list {
            None
        } else {
            Some(next - self.heads)
        }
    }

    /// The first row of a list that passes a test.
    pub fn find<T: Test>(&self, list: u32, test: &T) -> Option<u32>
        requires { list < list_count self.now }
        ensures value { result ≡ first_passing (T.test test.now) (rows_of self.now list) }
        ensures within { IfSome result (λ row. row < self.now.rows) }
    {
        let mut at = self.links[list as usize].next;
        for _turn in 0..self.owners.len() {
            if at == list {
                return None;
            }
            if test.passes(at - self.heads) {
                return Some(at - self.heads);
            }
            at = self.links[at as usize].next;
        }
        None
    }

    /// Puts a row that is in no list at the end of one.
    pub fn push_back(&mut self, list: u32, row: u32)
        requires list_in { list < list_count self.old }
        requires row_in { row < self.old.rows }
        requires free { IsFree self.old row }
        ensures { IsPushed self.old self.new list row }
    {
        splice(&mut self.links, self.heads + row, list);
        self.owners[row as usize] = Some(list);
    }

    /// Takes a row out of its list, where it is in one.
    pub fn unlink(&mut self, row: u32)
        requires { row < self.old.rows }
        ensures { IsUnlinked self.old self.new row }
    {
        if self.owners[row as usize].is_some() {
            skip(&mut self.links, self.heads + row);
            self.owners[row as usize] = None;
        }
    }

    /// Takes a row out of its list, where it is in one, and puts it at the end of a list.
    pub fn move_back(&mut self, list: u32, row: u32)
        requires list_in { list < list_count self.old }
        requires row_in { row < self.old.rows }
        ensures { IsMoved self.old self.new list row }
    {
        self.unlink(row);
        self.push_back(list, row);
    }
}
