//! Lists of literals in the form of DIMACS: numbers of variables from 1 on, each with a minus in front where it is negated, and 0
//! behind each list. A line that begins with another letter is passed over.

use ja_base::{Lit, Lits, Memory, Var};
use std::alloc::Global;

/// The variables that are taken, from 0 on; a number past them stands for the last one.
const MOST_VARS: u64 = 1_048_576;

/// Lists of literals, and how many variables they have, up to the greatest.
#[derive(Debug, Drop)]
pub(crate) struct Lists {
    pub(crate) lists: Vec<Lits>,
    pub(crate) vars: u32,
}

/// What was read: the lists, the one that is under way, and the number, if digits of one were read.
#[derive(Debug, Drop)]
struct Scan {
    lists: Lists,
    open: Lits,
    number: Option<u64>,
    neg: bool,
    passing: bool,
    alloc: Global,
}

impl Scan {
    fn new(alloc: Global) -> Scan {
        Scan {
            lists: Lists {
                lists: Vec::new(alloc),
                vars: 0,
            },
            open: Lits::new(alloc),
            number: None,
            neg: false,
            passing: false,
            alloc,
        }
    }

    /// The list that is under way is ended.
    fn close(&mut self) -> Result<(), Memory> {
        let open = std::mem::replace(&mut self.open, Lits::new(self.alloc));
        self.lists.lists.push(open)?;
        Ok(())
    }

    fn put(&mut self, number: u64) -> Result<(), Memory> {
        let var = (number.min(MOST_VARS) as u32).saturating_sub(1);
        if var >= self.lists.vars {
            self.lists.vars = var.saturating_add(1);
        }
        self.open.push(Lit::new(Var(var % (1 << 20)), self.neg))?;
        Ok(())
    }

    /// A number ends.
    fn end(&mut self) -> Result<(), Memory> {
        match self.number {
            None => {}
            Some(0) => self.close()?,
            Some(number) => self.put(number)?,
        }
        self.number = None;
        self.neg = false;
        Ok(())
    }

    fn take(&mut self, byte: u8) -> Result<(), Memory> {
        match byte {
            b'\n' => {
                self.end()?;
                self.passing = false;
            }
            b'0'..=b'9' if !self.passing => {
                let number = self.number.unwrap_or(0);
                self.number = Some(
                    number
                        .saturating_mul(10)
                        .saturating_add(u64::from(byte - b'0')),
                );
            }
            b'-' => self.neg = true,
            b'a'..=b'z' => self.passing = true,
            _ => self.end()?,
        }
        Ok(())
    }
}

pub(crate) fn read_lists(alloc: Global, bytes: &[u8]) -> Result<Lists, Memory> {
    let mut scan = Scan::new(alloc);
    for byte in bytes {
        scan.take(*byte)?;
    }
    scan.end()?;
    Ok(scan.lists)
}
