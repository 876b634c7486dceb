//! One signal's word turned over, and what that reaches; and the words of four signals, each in a lane of its own.
ghost use Rattle.std.specs.Prelude.{ℕ, ◌≡◌, ◌≢◌, ◌<◌, ◌≤◌, ◌+◌, List, length, map, None};
ghost use Rattle.std.specs.List.{All, AllPairs};
ghost use Rattle.statement.specs.Netlists.{signals};
ghost use Rattle.events.specs.Standing.{Moves, SettlesOver};
ghost use Rattle.regions.specs.Turned.{turned_words};
ghost use Rattle.regions.specs.Side.{SettlesInLanes, spread, turned_signals};
ghost use Rattle.events.specs.Words.{words};

use crate::fours::Four;
use crate::side::TurnedFour;
use crate::turned::TurnedWords;
use events::Events;
use netlist::SignalId;

/// The word of a signal is turned over in the patterns of a mask, and what that reaches settles anew.
pub fn turn(events: &mut Events<'_, u64>, signal: SignalId, mask: u64)
    requires within { signal < length (signals events.old.netlist) }
    requires room { length events.old.trail ≤ events.old.room }
    ensures moves { Moves events.old events.new }
    ensures settles { SettlesOver (words None) (turned_words signal mask) events.old.netlist events.old.values events.new.values }
{
    let driven = events.values()[signal.index()];
    events.change(&TurnedWords { signal, mask }, signal, driven);
}

/// In each lane the word of a signal of its own is turned over, and what the four reach settles anew, once.
pub fn turn_four(events: &mut Events<'_, Four>, turned: &TurnedFour)
    requires within { All (λ x. x < length (signals events.old.netlist)) (turned_signals turned.now) }
    requires distinct { AllPairs (λ x y. x ≢ y) (turned_signals turned.now) }
    requires room { length events.old.trail + 3 ≤ events.old.room }
    ensures moves { Moves events.old events.new }
    ensures settles { (values : List ℕ) → events.old.values ≡ map spread values → SettlesInLanes turned.now events.old.netlist values events.new.values }
{
    let signals = [
        turned.a.signal,
        turned.b.signal,
        turned.c.signal,
        turned.d.signal,
    ];
    events.change_each(turned, &signals);
}
