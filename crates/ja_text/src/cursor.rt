//! A cursor: it takes one form after another from the front of bytes, and knows its place.

ghost use Rattle.std.specs.Prelude.{◌≡◌, ◌+◌, ◌-◌, ◌≤◌, length, Some, None, IfOk, IfErr, OnOk, OnErr};
ghost use Rattle.ja_text.specs.Numbers.{number_at};
ghost use Rattle.ja_text.specs.Lines.{space_at, newline_at, line_at};

use crate::bytes;
use std::marker::Model;

/// The bytes at this place are not in the form that was asked for.
#[derive(Clone, Copy, Debug, PartialEq, Eq)]
pub struct Bad {
    pub at: usize,
}

/// Bytes that are read from the front. What is refused is not taken.
#[derive(Debug, Drop)]
pub struct Cursor<'a> {
    rest: &'a [u8],
    at: usize,
}

impl<'a> Model for Cursor<'a> {
    ghost use Rattle.std.specs.Prelude.{◌+◌, ◌<◌, ◌^◌, length};
    ghost use Rattle.ja_text.specs.Places.{Place};

    ghost Value = { Place };

    ghost view = { λ c. record { at = c.at; rest = c.rest.now } };

    ghost invariant = { λ c. c.at + length c.rest.now < 2 ^ 64 };
}

impl<'a> Cursor<'a> {
    ghost use Rattle.ja_text.specs.Places.{Moves};

    pub fn new(bytes: &'a [u8]) -> Cursor<'a>
        ensures { result ≡ record { at = 0; rest = bytes.now } }
    {
        Cursor { rest: bytes, at: 0 }
    }

    /// How many bytes were taken.
    pub fn at(&self) -> usize
        ensures { result ≡ self.now.at }
    {
        self.at
    }

    fn move_to(&mut self, rest: &'a [u8])
        requires { length rest.now ≤ length self.old.rest }
        ensures rest { self.new.rest ≡ rest.now }
        ensures moved { Moves self.old self.new }
    {
        self.at += self.rest.len() - rest.len();
        self.rest = rest;
    }

    /// All the digits that stand here. A greater number than 2^64 - 1 is answered as that.
    pub fn number(&mut self) -> Result<u64, Bad>
        ensures ok { IfOk result (λ n. number_at self.old.rest ≡ Some (n, self.new.rest)) }
        ensures moved { OnOk result (Moves self.old self.new) }
        ensures bad { IfErr result
            (λ bad. (number_at self.old.rest ≡ None) × (bad.at ≡ self.old.at)) }
        ensures stays { OnErr result (self.new ≡ self.old) }
    {
        match bytes::number(self.rest) {
            Some((number, rest)) => {
                self.move_to(rest);
                Ok(number)
            }
            None => Err(Bad { at: self.at }),
        }
    }

    pub fn space(&mut self) -> Result<(), Bad>
        ensures ok { OnOk result (space_at self.old.rest ≡ Some self.new.rest) }
        ensures moved { OnOk result (Moves self.old self.new) }
        ensures bad { IfErr result
            (λ bad. (space_at self.old.rest ≡ None) × (bad.at ≡ self.old.at)) }
        ensures stays { OnErr result (self.new ≡ self.old) }
    {
        match bytes::space(self.rest) {
            Some(rest) => {
                self.move_to(rest);
                Ok(())
            }
            None => Err(Bad { at: self.at }),
        }
    }

    pub fn newline(&mut self) -> Result<(), Bad>
        ensures ok { OnOk result (newline_at self.old.rest ≡ Some self.new.rest) }
        ensures moved { OnOk result (Moves self.old self.new) }
        ensures bad { IfErr result
            (λ bad. (newline_at self.old.rest ≡ None) × (bad.at ≡ self.old.at)) }
        ensures stays { OnErr result (self.new ≡ self.old) }
    {
        match bytes::newline(self.rest) {
            Some(rest) => {
                self.move_to(rest);
                Ok(())
            }
            None => Err(Bad { at: self.at }),
        }
    }

    /// The bytes up to the next LF. The LF is taken and is no part of the line.
    pub fn line(&mut self) -> Result<&'a [u8], Bad>
        ensures ok { IfOk result (λ line. line_at self.old.rest ≡ Some (line.now, self.new.rest)) }
        ensures moved { OnOk result (Moves self.old self.new) }
        ensures bad { IfErr result
            (λ bad. (line_at self.old.rest ≡ None) × (bad.at ≡ self.old.at)) }
        ensures stays { OnErr result (self.new ≡ self.old) }
    {
        match bytes::line(self.rest) {
            Some((line, rest)) => {
                self.move_to(rest);
                Ok(line)
            }
            None => Err(Bad { at: self.at }),
        }
    }
}
