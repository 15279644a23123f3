//! What an engineer expects of each property.

ghost use Rattle.std.specs.Prelude.{◌≡◌, ◌<◌, Bool, true, false, List, length, replicate, slice_set, IfOk};
ghost use Rattle.ja_base.specs.Literals.{bit};

use ja_base::{Memory, Row};
use std::alloc::Global;
use std::marker::Model;

/// For each property whether it is expected to hold, which is: assumed at earlier steps.
#[derive(Debug, Drop)]
pub struct Expect {
    assumed: Row,
}

impl Model for Expect {
    ghost use Rattle.std.specs.Prelude.{List, Bool};

    ghost Value = { List Bool };

    ghost view = { λ e. e.assumed };
}

impl Expect {
    /// Each of `props` properties is expected to hold.
    pub fn all(alloc: Global, props: u32) -> Result<Expect, Memory>
        ensures { IfOk result (λ expect. expect ≡ replicate props true) }
    {
        Ok(Expect {
            assumed: Row::ones(alloc, props)?,
        })
    }

    /// How many properties there are.
    pub fn len(&self) -> u32
        ensures { result ≡ length self.now }
    {
        self.assumed.len()
    }

    /// From now on the property is expected to fail.
    pub fn set_fail(&mut self, prop: u32)
        requires { prop < length self.old }
        ensures { self.new ≡ slice_set self.old prop false }
    {
        self.assumed.set(prop, false);
    }

    pub fn is_assumed(&self, prop: u32) -> bool
        requires { prop < length self.now }
        ensures { result ≡ bit self.now prop }
    {
        self.assumed.get(prop)
    }
}
