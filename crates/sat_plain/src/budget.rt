//! A unit of the budget, and a poll of the flag.

ghost use Rattle.std.specs.Prelude.{◌≡◌};
ghost use Rattle.ja_outside.specs.Flags.{IsPolled, IsFoundRaised};
ghost use Rattle.sat_plain.specs.Ticks.{TicksAtMost, IsLater};
ghost use Rattle.sat_plain.specs.Payments.{IsPaid, OnPaymentStopped};

use ja_base::Meter;
use ja_outside::Flag;

/// Whether the search may go on.
#[derive(Clone, Copy, Debug)]
pub enum Payment {
    Paid,
    /// The meter's limit is reached.
    Spent,
    /// The flag was found raised.
    Stopped,
}

/// Ticks first, and polls the flag only behind a unit that was spent.
pub fn pay<F: Flag>(meter: &mut Meter, flag: &mut F) -> Payment
    ensures paid { IsPaid meter.old meter.new result }
    ensures later { IsLater meter.old meter.new }
    ensures bounded { TicksAtMost meter.old meter.new 1 }
    ensures stopped { OnPaymentStopped result
        (IsFoundRaised F.may_rise F.raised flag.old flag.new) }
    ensures flag { IsPolled F.may_rise F.raised flag.old flag.new }
{
    match meter.tick() {
        Err(_) => Payment::Spent,
        Ok(()) => {
            if flag.poll() {
                Payment::Stopped
            } else {
                Payment::Paid
            }
        }
    }
}
