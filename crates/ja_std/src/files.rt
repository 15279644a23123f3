//! Files of the system, by path.

ghost use Rattle.std.specs.Prelude.{◌≡◌, ℕ, List, Option, None, is_some};

use ja_outside::{Failed, Shelf};
use std::fs;
use std::io::Read;
use std::rt::Files;

/// Names are paths. A file that cannot be opened or read is a fault, a missing one too.
#[derive(Drop)]
pub struct FileShelf<'a, R: Files> {
    rt: &'a R,
    file: Option<R::File>,
    faults: u64,
}

impl<'a, R: Files> FileShelf<'a, R> {
    /// No file is selected.
    pub fn new(rt: &'a R) -> FileShelf<'a, R>
        ensures { result.faults ≡ 0 }
    {
        FileShelf {
            rt,
            file: None,
            faults: 0,
        }
    }

    /// How many calls failed; it stays at its last value.
    pub fn faults(&self) -> u64
        ensures { result ≡ self.now.faults }
    {
        self.faults
    }
}

impl<R: Files> Shelf for FileShelf<'_, R> {
    ghost holds = { λ _. None };

    ghost left = { λ _. None };

    ghost is_selected = { λ s. is_some s.file };

    ghost faults = { λ s. s.faults };

    fn select(&mut self, name: &str) -> Result<(), Failed> {
        match fs::open(self.rt, name) {
            Ok(file) => {
                self.file = Some(file);
                Ok(())
            }
            Err(_) => {
                self.file = None;
                self.faults = self.faults.saturating_add(1);
                Err(Failed)
            }
        }
    }

    fn read(&mut self, buf: &mut [u8]) -> Result<usize, Failed> {
        if let Some(file) = &mut self.file {
            if let Ok(count) = file.read(buf) {
                return Ok(count);
            }
        }
        self.faults = self.faults.saturating_add(1);
        Err(Failed)
    }
}
