//! A shelf in memory, for tests: it gives its files in small pieces, and fails at stated calls.

ghost use Rattle.std.specs.Prelude.{◌≡◌, ◌+◌, ◌-◌, ◌<◌, ◌≤◌, [], length, min, drop, Some, None, unwrap_or, is_some, is_ok, is_err, IsSome, IfOk, OnErr};
ghost use Rattle.ja_outside.specs.Shelf.{Moves};

use crate::failed::Failed;
use crate::files::place_of;
use crate::plan::Plan;
use crate::shelf::Shelf;
use std::marker::Model;

/// Where two files have one name, the first is meant.
#[derive(Debug, Drop)]
pub struct MemShelf {
    files: Vec<(String, Vec<u8>)>,
    piece: usize,
    selected: Option<Place>,
    plan: Plan,
}

/// A file by its place in the list, and how many of its bytes were given.
#[derive(Clone, Copy, Debug)]
struct Place {
    file: usize,
    at: usize,
}

impl Model for MemShelf {
    ghost use Rattle.std.specs.Prelude.{◌<◌};
    ghost use Rattle.ja_outside.specs.InMemory.{ShelfInMemory};

    ghost Value = { ShelfInMemory };

    ghost use Rattle.ja_outside.specs.Files.{files_of, left_at, IsWithin};

    ghost view = { λ a. record {
      files = files_of a.files.items;
      left = left_at a.files.items a.selected;
      piece = a.piece;
      fails = a.plan.fails.items;
      calls = a.plan.calls;
      faults = a.plan.faults;
    } };

    ghost invariant = { λ a. (0 < a.piece) × IsWithin a.files.items a.selected };
}

impl MemShelf {
    ghost use Rattle.ja_outside.specs.Files.{files_of};

    /// A read gives at most `piece` bytes. `fails` has the numbers of the calls that fail and are counted; the first call of
    /// `select` or `read` has the number 0. A name that is not held fails too, and is not counted.
    pub fn new(files: Vec<(String, Vec<u8>)>, piece: usize, fails: Vec<u64>) -> MemShelf
        requires { 0 < piece }
        ensures { result ≡ record {
          files = files_of files.items;
          left = None;
          piece = piece;
          fails = fails.items;
          calls = 0;
          faults = 0;
        } }
    {
        MemShelf {
            files,
            piece,
            selected: None,
            plan: Plan {
                fails,
                calls: 0,
                faults: 0,
            },
        }
    }

    pub fn faults(&self) -> u64
        ensures { result ≡ self.now.faults }
    {
        self.plan.faults
    }
}

impl Shelf for MemShelf {
    ghost use Rattle.ja_outside.specs.InMemory.{file_of, is_to_fail, after_call, left_by_select};

    ghost holds = { λ s. Some (file_of s.files) };

    ghost left = { λ s. s.left };

    ghost is_selected = { λ s. is_some s.left };

    ghost faults = { λ s. s.faults };

    fn select(&mut self, name: &str) -> Result<(), Failed>
        ensures answer { is_ok result ≡ is_some (left_by_select self.old name.now) }
        ensures after { self.new ≡ after_call self.old (left_by_select self.old name.now) }
        ensures later { self.old.faults ≤ self.new.faults }
    {
        self.selected = None;
        if self.plan.count_call() {
            return Err(Failed);
        }
        match place_of(self.files.as_slice(), name) {
            Some(file) => {
                self.selected = Some(Place { file, at: 0 });
                Ok(())
            }
            None => Err(Failed),
        }
    }

    fn read(&mut self, buf: &mut [u8]) -> Result<usize, Failed>
        requires { IsSome self.old.left }
        ensures answer { is_err result ≡ is_to_fail self.old }
        ensures given { IfOk result
            (λ n. n ≡ min (min self.old.piece (length buf.new))
            (length (unwrap_or self.old.left []))) }
        ensures after { self.new ≡ after_call self.old self.new.left }
        ensures selected { IsSome self.new.left }
        ensures ok { IfOk result (λ n. Moves self.old.left self.new.left n buf.new) }
        ensures err { OnErr result (self.new.left ≡ self.old.left) }
        ensures later { self.old.faults ≤ self.new.faults }
    {
        if self.plan.count_call() {
            return Err(Failed);
        }
        let place = self.selected.unwrap();
        let file = self.files[place.file].1.as_slice();
        let given = give(file, place.at, self.piece, buf);
        self.selected = Some(Place {
            file: place.file,
            at: place.at + given,
        });
        Ok(given)
    }
}

/// Moves the bytes of a file from a place on to the front of `buf`, at most `piece`.
fn give(file: &[u8], at: usize, piece: usize, buf: &mut [u8]) -> usize
    requires within { at ≤ length file.now }
    requires some { 0 < piece }
    ensures given { result ≡ min (min piece (length buf.new)) (length file.now - at) }
    ensures moved { Moves (Some (drop at file.now)) (Some (drop (at + result) file.now))
        result buf.new }
{
    let rest = &file[at..];
    let given = piece.min(buf.len()).min(rest.len());
    buf[..given].copy_from_slice(&rest[..given]);
    given
}
