//! How far propagation has come.

ghost use Rattle.std.specs.Prelude.{◌≡◌, ℕ, ◌+◌, ◌<◌, ◌≤◌, ◌^◌, ◌∷◌, ◌++◌, [], List, None, Some, false, true, length, take, drop, slice_get, IfOk, IfSome, OnOk, OnErr};
ghost use Rattle.sat_watch.specs.Stores.{Stored, IsThere};
ghost use Rattle.sat_watch.specs.Watching.{Watching};
ghost use Rattle.sat_watch.specs.Visits.{IsSafe};
ghost use Rattle.sat_watch.specs.Fronts.{IsFront};

use ja_base::Memory;
use std::alloc::Global;

/// By length of the trail, whether propagation ended quiet there, and over how much of the log; the log of slots that were taken;
/// where the trail is not looked at yet, and the log; and whether all clauses are to be looked at.
#[derive(Debug, Drop)]
pub(crate) struct Front {
    pub(crate) marks: Vec<Option<usize>>,
    pub(crate) log: Vec<u32>,
    pub(crate) head: u32,
    pub(crate) seen: usize,
    pub(crate) dirty: bool,
}

/// Makes marks for trails of at most so many places.
fn unmarked(alloc: Global, vars: u32) -> Result<Vec<Option<usize>>, Memory>
    ensures width { IfOk result (λ marks. length marks.items ≡ vars + 1) }
    ensures none { IfOk result (λ marks. (d n : ℕ) → slice_get marks.items d ≡ Some (Some n) → ⊥) }
{
    let mut marks = Vec::new(alloc);
    marks.push(None)?;
    for _ in 0..vars {
        marks.push(None)?;
    }
    Ok(marks)
}

impl Front {
    /// All is to be looked at.
    pub(crate) fn new(alloc: Global, vars: u32) -> Result<Front, Memory>
        ensures { IfOk result (λ front. (store : Stored) (w : Watching) (lits : List ℕ)
            → IsFront vars store w lits front) }
    {
        let marks = unmarked(alloc, vars)?;
        Ok(Front {
            marks,
            log: Vec::new(alloc),
            head: 0,
            seen: 0,
            dirty: true,
        })
    }

    /// One more variable.
    pub(crate) fn fresh(&mut self) -> Result<(), Memory>
        ensures ok { OnOk result ((vars wider : ℕ) (store : Stored) (w : Watching)
            (lits : List ℕ) → wider ≤ vars + 1
            → IsFront vars store w lits self.old → IsFront wider store w lits self.new) }
        ensures err { OnErr result ((vars : ℕ) (store : Stored) (w : Watching) (lits : List ℕ)
            → IsFront vars store w lits self.old → IsFront vars store w lits self.new) }
    {
        self.marks.push(None)?;
        Ok(())
    }

    /// The slot is to be looked at.
    pub(crate) fn note(&mut self, slot: u32) -> Result<(), Memory>
        ensures log { OnOk result (self.new.log.items ≡ self.old.log.items ++ slot ∷ []) }
        ensures marks { self.new.marks.items ≡ self.old.marks.items }
        ensures err { OnErr result (self.new.log.items ≡ self.old.log.items) }
        ensures head { self.new.head ≡ self.old.head }
        ensures seen { self.new.seen ≡ self.old.seen }
        ensures dirty { self.new.dirty ≡ self.old.dirty }
    {
        self.log.push(slot)?;
        Ok(())
    }

    /// The slots that are to be looked at.
    pub(crate) fn unseen(&self) -> &[u32]
        ensures { result.now ≡ drop self.now.seen self.now.log.items }
    {
        if self.seen >= self.log.len() {
            return &[];
        }
        &self.log[self.seen..]
    }

    /// No length is marked, and the log is empty.
    fn clear(&mut self)
        ensures width { length self.new.marks.items ≡ length self.old.marks.items }
        ensures front { (vars : ℕ) (store : Stored) (w : Watching) (lits : List ℕ)
            → IsFront vars store w lits self.old
            → ((k : ℕ) (clause : List ℕ) → IsThere store k clause → IsSafe w lits lits k clause)
            → IsFront vars store w lits self.new }
    {
        for at in 0..self.marks.len() {
            self.marks[at] = None;
        }
        self.log.clear();
        self.seen = 0;
    }

    /// Propagation ended quiet. A log that is longer than the marks is begun anew.
    pub(crate) fn settle(&mut self, len: u32)
        requires { len < length self.old.marks.items }
        ensures { (vars : ℕ) (store : Stored) (w : Watching) (lits : List ℕ)
            → IsFront vars store w lits self.old
            → len ≡ length lits
            → ((k : ℕ) (clause : List ℕ) → IsThere store k clause → IsSafe w lits lits k clause)
            → IsFront vars store w lits self.new }
    {
        if self.log.len() <= self.marks.len() {
            self.mark(len);
            return;
        }
        self.clear();
        self.mark(len);
    }

    fn mark(&mut self, len: u32)
        requires { len < length self.old.marks.items }
        ensures { (vars : ℕ) (store : Stored) (w : Watching) (lits : List ℕ)
            → IsFront vars store w lits self.old
            → len ≡ length lits
            → ((k : ℕ) (clause : List ℕ) → IsThere store k clause → IsSafe w lits lits k clause)
            → IsFront vars store w lits self.new }
    {
        self.marks[len as usize] = Some(self.log.len());
    }

    /// The greatest marked length up to this one.
    fn last_mark(&self, to: u32) -> Option<(u32, usize)>
        requires { to < length self.now.marks.items }
        ensures { IfSome result (λ found. (found.0 ≤ to)
            × (slice_get self.now.marks.items found.0 ≡ Some (Some found.1))) }
    {
        for at in (0..to as usize + 1).rev() {
            if let Some(seen) = self.marks[at] {
                return Some((at as u32, seen));
            }
        }
        None
    }

    /// No length above this one is marked, up to the other.
    fn unmark(&mut self, to: u32, len: u32)
        requires { len < length self.old.marks.items }
        ensures width { length self.new.marks.items ≡ length self.old.marks.items }
        ensures fewer { (d n : ℕ) → slice_get self.new.marks.items d ≡ Some (Some n)
            → slice_get self.old.marks.items d ≡ Some (Some n) }
        ensures gone { (d n : ℕ) → to < d → d ≤ len
            → slice_get self.new.marks.items d ≡ Some (Some n) → ⊥ }
        ensures log { self.new.log.items ≡ self.old.log.items }
        ensures head { self.new.head ≡ self.old.head }
        ensures seen { self.new.seen ≡ self.old.seen }
        ensures dirty { self.new.dirty ≡ self.old.dirty }
    {
        for at in to as usize + 1..len as usize + 1 {
            self.marks[at] = None;
        }
    }

    /// The trail keeps its first places, so many: it is looked at again from the last mark on.
    pub(crate) fn retreat(&mut self, to: u32, len: u32)
        requires to { to ≤ len }
        requires len { len < length self.old.marks.items }
        ensures { (vars : ℕ) (store : Stored) (w : Watching) (lits : List ℕ)
            → IsFront vars store w lits self.old
            → len ≡ length lits → IsFront vars store w (take to lits) self.new }
    {
        self.unmark(to, len);
        match self.last_mark(to) {
            Some((head, seen)) => {
                self.head = head;
                self.seen = seen;
                self.dirty = false;
            }
            None => self.dirty = true,
        }
    }
}
