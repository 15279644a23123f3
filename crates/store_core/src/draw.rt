//! Drawing a property, and taking the list as it is now.

ghost use Rattle.std.specs.Prelude.{◌≡◌, ◌<◌, ◌+◌, ◌^◌, ◌∷◌, ◌++◌, [], length, Option, Some, None, IfOk, IfSome, OnOk, OnErr};
ghost use Rattle.ja_base.specs.Circuit.{Problem};
ghost use Rattle.store_core.specs.declared.journal.Event.TheVariants.{Draw, Import};
ghost use Rattle.store_core.specs.Steps.{job_of};
ghost use Rattle.store_core.specs.Boards.{Did, IsViewOf};
ghost use Rattle.store_core.specs.Judged.{view_of, drawn_job, IfJob};

use crate::answers::Drawn;
use crate::board::Board;
use crate::journal::{Entry, Event, Reply};
use ja_base::{ClosedSet, Memory, Shown};
use std::alloc::Global;

impl<C: ClosedSet, V: Shown> Board<C, V> {
    fn next_job(&self) -> Option<u32>
        ensures job { result ≡ job_of self.now.opening self.now.state }
        ensures left { IfSome result (λ p. self.now.state.place + 1 < 2 ^ 32) }
        ensures within { IfSome result (λ p. p < length self.now.opening.assumed) }
    {
        if self.cancel.is_some() || self.place >= self.opening.plan.len() {
            return None;
        }
        Some(*self.opening.plan.get(self.place))
    }

    /// The next property of the plan, if there is one and no Cancel stands.
    pub fn draw(&mut self, alloc: Global, seat: u32) -> Result<Drawn<C>, Memory>
        ensures err { OnErr result (self.new ≡ self.old) }
        ensures did { OnOk result (Did C.task self.old self.new seat Draw) }
        ensures failures { OnOk result (self.new.failures ≡ self.old.failures) }
        ensures view { IfOk result (λ d. IsViewOf C.clauses C.task self.new (view_of d)) }
        ensures job { IfOk result (λ d. drawn_job d ≡ job_of self.old.opening self.old.state) }
        ensures within { IfOk result (λ d. IfJob d (λ p. p < length self.old.opening.assumed)) }
    {
        let view = self.list.copy(alloc)?;
        let upto = view.len();
        match self.next_job() {
            Some(prop) => {
                let reply = Reply::Job { prop, upto };
                self.journal.push(Entry {
                    seat,
                    event: Event::Draw,
                    reply,
                })?;
                self.place += 1;
                Ok(Drawn::Job { prop, view })
            }
            None => {
                let reply = Reply::NoJob { upto };
                self.journal.push(Entry {
                    seat,
                    event: Event::Draw,
                    reply,
                })?;
                Ok(Drawn::NoJob { view })
            }
        }
    }

    /// The list as it is now.
    pub fn import(&mut self, alloc: Global, seat: u32) -> Result<C, Memory>
        ensures err { OnErr result (self.new ≡ self.old) }
        ensures did { OnOk result (Did C.task self.old self.new seat Import) }
        ensures failures { OnOk result (self.new.failures ≡ self.old.failures) }
        ensures view { IfOk result (IsViewOf C.clauses C.task self.new) }
    {
        let view = self.list.copy(alloc)?;
        let upto = view.len();
        let reply = Reply::Clauses { upto };
        self.journal.push(Entry {
            seat,
            event: Event::Import,
            reply,
        })?;
        Ok(view)
    }
}
